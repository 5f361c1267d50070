// The plan's records handed over: verdicts, acceptance, the smallest capacity and the order of a guest's tasks.
use draft::text::Row;
use plan::Plan;
use show::Line;
use std::io;

// The verdict of a guest, or of one of its tasks.
pub fn verdict(rt: &impl Print, p: &Plan, row: Row) -> io::Result<()> {
    let [id, task, ..] = row.numbers;
    let line = if row.count < 2 {
        show::guest_line(p, id)
    } else {
        show::task_line(p, id, task)
    };
    println!(rt; ": {line}")
}

// Whether the plan is accepted.
pub fn accept(rt: &impl Print, p: &Plan) -> io::Result<()> {
    println!(rt; ": {}", show::last_line(p))
}

// The smallest capacity of a guest.
pub fn smallest(rt: &impl Print, p: &Plan, row: Row) -> io::Result<()> {
    match capacity::smallest_capacity(p, row.numbers[0]) {
        Ok(c) => println!(rt; ": capacity {c}"),
        Err(r) => println!(rt; ": {}", Line::Refused(r.number, r.place)),
    }
}

// The order of the tasks of a guest: the plan that comes back is the one in hand from here on.
pub fn ordered(rt: &impl Print, p: &Plan, row: Row) -> io::Result<Plan> {
    let r = order::propose(*p, row.numbers[0]);
    let refusal = r.refusal;
    // Number 0 says that there is none, as C is told.
    if 0 < refusal.number {
        println!(rt; ": {}", Line::Refused(refusal.number, refusal.place))?;
    } else {
        println!(rt; ": by deadline")?;
    }
    Ok(r.plan)
}
