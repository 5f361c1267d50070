// A plan's text, a guest or a task to a line. An empty line, or one that starts with #, is left out.
use draft::text::{row_of, with_line};
use plan::Plan;

// The plan of a whole text, or the number, from 1, of its first line that is neither a guest nor a task.
pub fn read(text: &[u8]) -> Result<Plan, usize> {
    let mut plan = plan::blank_plan();
    for (k, line) in text.split(|b| *b == b'\n').enumerate() {
        plan = with_line(plan, row_of(line)).ok_or(k.saturating_add(1))?;
    }
    Ok(plan)
}
