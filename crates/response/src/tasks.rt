// The columns of a guest's tasks, which the equations of tasks are read off.
ghost use Rattle.response.specs.Columns.{TasksOf};
ghost use Rattle.response.specs.Ready.{TasksIn};

use plan::{Guest, charged_run};

// The charged runs, periods and deadlines of a guest's tasks, a column for each, and how many they are: the library has
// no heap, and the edges of quotients go along columns.
#[derive(Clone, Copy)]
pub struct Tasks {
    pub run: [u32; 16],
    pub every: [u32; 16],
    pub deadline: [u32; 16],
    pub count: usize,
}

// The columns of a guest's tasks.
pub fn tasks_of(g: &Guest) -> Tasks
    requires { TasksIn g.now }
    ensures { TasksOf g.now result }
{
    let count = g.tasks as usize;
    let mut run = [0u32; 16];
    for i in 0..count {
        run[i] = charged_run(g.run[i], g.charge) as u32;
    }
    Tasks {
        run,
        every: g.every,
        deadline: g.deadline,
        count,
    }
}
