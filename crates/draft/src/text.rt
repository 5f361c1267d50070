// A line of text: its first letter says what it is, and whatever is no digit parts its numbers.
// A guest's line is `guest ID CAPACITY/PERIOD charge CHARGE`, with the word `deferrable` behind it if its server is, a
// task's `task RUN/PERIOD/DEADLINE`, with the word `bound` behind it if the task is bound.
use crate::Task;
use plan::{Guest, Plan};

// What stands behind a line's numbers: nothing but blanks, the word of its kind, or anything else.
#[derive(Clone, Copy, PartialEq, Eq)]
enum Tail {
    Blank,
    Word,
    Other,
}

// A line: its first byte, zeros aside, or 0 where it has none; how many numbers it has, and the first six of them.
#[derive(Clone, Copy)]
pub struct Row {
    pub first: u8,
    pub count: usize,
    pub numbers: [u32; 6],
    tail: Tail,
}

// The number that digits say; one past 32 bits is the largest.
fn number_of(digits: &[u8]) -> u32 {
    digits.iter().fold(0u32, |n, digit| {
        n.saturating_mul(10)
            .saturating_add(u32::from(digit.saturating_sub(b'0')))
    })
}

// What stands behind the last digit. Blanks may stand around the word.
fn tail_of(line: &[u8], word: &[u8]) -> Tail {
    let behind = line.rsplit(|b| b.is_ascii_digit()).next().unwrap_or(line);
    let mut words = behind
        .split(|b| matches!(*b, b' ' | b'\t' | b'\r'))
        .filter(|w| !w.is_empty());
    let Some(only) = words.next() else {
        return Tail::Blank;
    };
    if words.next().is_none() & (only == word) {
        Tail::Word
    } else {
        Tail::Other
    }
}

// A line without its end.
pub fn row_of(line: &[u8]) -> Row {
    let first = line.iter().copied().find(|b| *b != 0).unwrap_or(0);
    let mut numbers = [0; 6];
    let mut count: usize = 0;
    for digits in line.split(|b| !b.is_ascii_digit()) {
        if !digits.is_empty() {
            if count < 6 {
                numbers[count] = number_of(digits);
            }
            count = count.saturating_add(1);
        }
    }
    let tail = if first == b'g' {
        tail_of(line, b"deferrable")
    } else {
        tail_of(line, b"bound")
    };
    Row {
        first,
        count,
        numbers,
        tail,
    }
}

// The guest that a line says.
fn guest_of(row: Row) -> Option<Guest> {
    if (row.count != 4) | (row.tail == Tail::Other) {
        return None;
    }
    let [id, capacity, period, charge, ..] = row.numbers;
    Some(Guest {
        id,
        capacity,
        period,
        charge: u16::try_from(charge).ok()?,
        deferrable: u32::from(row.tail == Tail::Word),
        ..plan::blank_guest()
    })
}

// The task that a line says.
fn task_of(row: Row) -> Option<Task> {
    if (row.count != 3) | (row.tail == Tail::Other) {
        return None;
    }
    let [run, every, deadline, ..] = row.numbers;
    Some(Task {
        run,
        every,
        deadline,
        bound: row.tail == Tail::Word,
    })
}

// The plan with the line's guest below the others, or with its task below the last guest's others; as it was after an
// empty line or one that starts with #. There is none where the line is none of these, or says what has no room.
pub fn with_line(p: Plan, row: Row) -> Option<Plan> {
    match row.first {
        0 | b'#' => Some(p),
        b'g' => crate::with_guest(p, guest_of(row)?),
        b't' => crate::with_last_task(p, task_of(row)?),
        _ => None,
    }
}
