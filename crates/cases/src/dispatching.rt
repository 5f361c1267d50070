// The dispatcher's calls, on states that its own calls gave and on states with a number out of place.
use crate::sheets;
use casework::say;
use dispatcher::{Answer, Dispatcher};
use draft::text::Row;
use plan::{Plan, Refusal};
use std::io;

// A call without an answer: whether it is refused, and the state that it gives.
fn called(rt: &impl Print, refusal: Refusal, state: Dispatcher) -> io::Result<Dispatcher> {
    say::refusal(rt, refusal)?;
    println!(rt)?;
    Ok(state)
}

// Who had the tick, and a finished job.
fn answer(rt: &impl Print, a: Answer) -> io::Result<()> {
    match a {
        Answer::Silent => println!(rt; ", no answer"),
        Answer::Nobody => println!(rt; ", nobody"),
        Answer::Idled(guest) => println!(rt; ", idled by guest {guest}"),
        Answer::Worked(guest, task) => println!(rt; ", guest {guest} task {task}"),
        Answer::Finished {
            guest,
            task,
            age,
            margin,
        } => {
            let late = if margin < 0 { ", late" } else { "" };
            println!(rt; ", guest {guest} task {task} finished, age {age}{late}")
        }
    }
}

fn tick(rt: &impl Print, d: Dispatcher) -> io::Result<Dispatcher> {
    let ticked = d.tick();
    say::refusal(rt, ticked.refusal)?;
    answer(rt, ticked.answer)?;
    Ok(ticked.state)
}

fn run(rt: &impl Print, d: Dispatcher, ticks: u32) -> io::Result<Dispatcher> {
    let ran = d.run(ticks);
    say::refusal(rt, ran.refusal)?;
    print!(rt; ", ticks {}", ran.done)?;
    answer(rt, ran.answer)?;
    Ok(ran.state)
}

// `Left` or `Position` of guest k set, or the number of its server, `Deferrable`, in the state's records.
pub fn set_guest(d: &mut Dispatcher, first: u8, k: usize, value: u32) {
    if k < 8 {
        match first {
            b'L' => d.left[k] = value,
            b'P' => d.position[k] = value,
            _ => d.plan.guests[k].deferrable = value,
        }
    }
}

// `Wait` or `Age` of the job at place k set, or its run left, `Job`.
pub fn set_job(d: &mut Dispatcher, first: u8, k: usize, value: u32) {
    if k < 128 {
        match first {
            b'W' => d.wait[k] = value,
            b'A' => d.age[k] = value,
            _ => d.rest[k] = value,
        }
    }
}

// `Start` from the plan; `Release` a guest's task; `Hand` in a sheet of releases; `Tick`; `Go` on for so many ticks.
pub fn call(rt: &impl Print, p: &Plan, d: Dispatcher, row: Row) -> io::Result<Dispatcher> {
    let [a, b, ..] = row.numbers;
    match row.first {
        b'S' => {
            let started = Dispatcher::fresh(*p);
            called(rt, started.refusal, started.state)
        }
        b'R' => {
            let released = d.release(a, b);
            called(rt, released.refusal, released.state)
        }
        b'H' => sheets::hand_in(rt, d, row),
        b'T' => tick(rt, d),
        b'G' => run(rt, d, a),
        _ => Ok(d),
    }
}
