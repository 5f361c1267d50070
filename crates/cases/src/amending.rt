// Amendments: the plan in hand as a sheet, tried against a standing plan.
use block::layout;
use draft::text::Row;
use plan::Plan;
use show::Line;
use std::io;

// The sheet: a block for each guest in hand, at the places that the line says after the guest that it asks for; the
// writer may refuse one.
fn write_sheet(p: &Plan, row: Row, buf: &mut [u8; draft::MOST_BYTES]) {
    let [_, first, second, third, ..] = row.numbers;
    let _ = blockwriter::write(p.guests[0], first, &mut buf[..]);
    let _ = blockwriter::write(p.guests[1], second, &mut buf[layout::SIZE..]);
    let _ = blockwriter::write(p.guests[2], third, &mut buf[2 * layout::SIZE..]);
}

// The finder's companion, and how many bytes the part found has.
fn find<'a>(rt: &impl Print, plan: &'a [u8], sheet: &'a [u8], id: u32) -> io::Result<()> {
    let r = amendment::find_place(plan, sheet, id);
    let part = amendment::find(plan, sheet, id);
    let file = if 0 < r.sheet { "sheet" } else { "plan" };
    println!(rt;
        ": number {} place {} of the {file}, bytes {}",
        r.number,
        r.place,
        part.len()
    )
}

fn smallest(rt: &impl Print, plan: &[u8], sheet: &[u8], id: u32) -> io::Result<()> {
    match amendment::smallest_capacity(plan, sheet, id) {
        Ok(c) => println!(rt; "capacity {c}"),
        Err(r) => rt.println(Line::Refused(r.number, r.place)),
    }
}

// Every entry, for the guest that the line asks for and its first two tasks.
fn try_pair<'a>(rt: &impl Print, plan: &'a [u8], sheet: &'a [u8], id: u32) -> io::Result<()> {
    find(rt, plan, sheet, id)?;
    rt.println(show::guest_shown(id, amendment::guest_verdict(plan, sheet, id)))?;
    rt.println(show::task_shown(1, amendment::task_verdict(plan, sheet, id, 1)))?;
    rt.println(show::task_shown(2, amendment::task_verdict(plan, sheet, id, 2)))?;
    smallest(rt, plan, sheet, id)?;
    rt.println(show::plan_shown(amendment::accept(plan, sheet)))
}

// `Offer` a guest of the standing plan the plan in hand as a sheet, its blocks at these places.
pub fn offer(rt: &impl Print, standing: &Plan, p: &Plan, row: Row) -> io::Result<()> {
    let mut plan = [0u8; draft::MOST_BYTES];
    let mut sheet = [0u8; draft::MOST_BYTES];
    let _ = draft::write(standing, &mut plan, true);
    write_sheet(p, row, &mut sheet);
    let n = draft::length(standing);
    let m = draft::length(p);
    try_pair(rt, &plan[..n], &sheet[..m], row.numbers[0])
}
