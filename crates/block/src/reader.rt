// A block read: tested in the order of the refusals, and its record.
ghost use Rattle.std.specs.Prelude.{◌≡◌, ◌+◌, ◌*◌, ◌≤◌};
ghost use Rattle.lists.specs.Refusals.{unless_number};
ghost use Rattle.words.specs.Word.{word};
ghost use Rattle.plan.specs.Ranges.{most_tasks, guest_ok, tasks_ok};
ghost use Rattle.block.specs.Layout.{block_words, period_word, entry_words, check_word};
ghost use Rattle.block.specs.Reading.{kind_in, place_in, id_in, task_count, marks_in, server_in, column, guest_of, kind_ok, zero_between, marks_ok, zeros_ok, block_number};

use crate::layout;
use crate::layout::SIZE;
use plan::Guest;

// The kind alone.
pub fn kind_of(b: &[u8; SIZE]) -> u32
    ensures { result ≡ kind_in b.now }
{
    words::word_at(b, layout::KIND_PLACE) % layout::HALF
}

// The marks of the tasks.
fn marks_of(b: &[u8; SIZE]) -> u32
    ensures { result ≡ marks_in b.now }
{
    words::word_at(b, layout::MARKS_SERVER) % layout::HALF
}

// The server.
fn server_of(b: &[u8; SIZE]) -> u32
    ensures { result ≡ server_in b.now }
{
    words::word_at(b, layout::MARKS_SERVER) / layout::HALF % layout::BYTE
}

// Whether the kind is a guest's, and has marks or a Deferrable Server where it is the one that says so. In the other
// neither is read.
fn kind_ok(b: &[u8; SIZE]) -> bool
    ensures { result ≡ kind_ok b.now }
{
    let kind = kind_of(b);
    kind == layout::PLAIN_KIND
        || (kind == layout::EXTENDED_KIND
            && (1 <= marks_of(b) || server_of(b) == layout::DEFERRABLE_SERVER))
}

// The place alone.
pub fn place_of(b: &[u8; SIZE]) -> u32
    ensures { result ≡ place_in b.now }
{
    words::word_at(b, layout::KIND_PLACE) / layout::HALF
}

// Whether the words from one on, up to another, are zero. No early way out: a block in order is tested whole anyway, and
// without one the loop takes several words at a time.
#[tactic(auto, unfolding(crate::specs::Reading::zero_between, lists::specs::All::all_to))]
pub fn zero_between(b: &[u8; SIZE], from: usize, to: usize) -> bool
    requires { (from ≤ to) × (to ≤ block_words) }
    ensures { result ≡ zero_between b.now from to }
{
    let mut ok = true;
    for k in 0..to - from {
        ok &= words::word_at(b, from + k) == 0;
    }
    ok
}

// The number of tasks.
fn tasks_of(b: &[u8; SIZE]) -> u32
    ensures { result ≡ task_count b.now }
{
    words::word_at(b, layout::TASKS_CHARGE) % layout::HALF
}

// Whether bytes 20-23 are zero, or those of kind 2 with no mark past the tasks, and a server's. Where they are zero, no
// more is asked.
#[tactic(auto, unfolding(crate::specs::Reading::marks_ok))]
fn marks_ok(b: &[u8; SIZE]) -> bool
    requires { task_count b.now ≤ most_tasks }
    ensures { result ≡ marks_ok b.now }
{
    let w = words::word_at(b, layout::MARKS_SERVER);
    w == 0
        || (kind_of(b) == layout::EXTENDED_KIND
            && w % layout::HALF < 1 << tasks_of(b)
            && w / layout::HALF <= layout::DEFERRABLE_SERVER)
}

// Whether the bytes that must be zero are, no mark is past the tasks, and byte 22 is a server's.
fn zeros_ok(b: &[u8; SIZE]) -> bool
    requires { task_count b.now ≤ most_tasks }
    ensures { result ≡ zeros_ok b.now }
{
    let n = tasks_of(b) as usize;
    marks_ok(b)
        && zero_between(b, layout::SPARE_FROM, layout::SPARE_TO)
        && zero_between(b, layout::RUN + layout::ENTRY * n, layout::CHECK)
}

// One number of each entry; the first entry's stands at word `first`.
fn column_of(b: &[u8; SIZE], first: usize) -> [u32; 16]
    requires { first + entry_words * most_tasks ≤ check_word }
    ensures { result ≡ column b.now (λ i. first + entry_words * i) }
{
    std::array::from_fn(|i| words::word_at(b, first + layout::ENTRY * i))
}

// The guest's id alone.
pub fn id_of(b: &[u8; SIZE]) -> u32
    ensures { result ≡ id_in b.now }
{
    words::word_at(b, layout::ID)
}

// The record that the words of a block say, whatever they are.
pub fn decode(b: &[u8; SIZE]) -> Guest
    ensures { result ≡ guest_of b.now }
{
    let id = id_of(b);
    let capacity = words::word_at(b, layout::CAPACITY);
    let period = words::word_at(b, layout::PERIOD);
    let tasks_charge = words::word_at(b, layout::TASKS_CHARGE);
    let tasks = tasks_charge % layout::HALF;
    let charge = (tasks_charge / layout::HALF) as u16;
    let marks_server = words::word_at(b, layout::MARKS_SERVER);
    let marks = (marks_server % layout::HALF) as u16;
    let deferrable = marks_server / layout::HALF % layout::BYTE;
    let run = column_of(b, layout::RUN);
    let every = column_of(b, layout::EVERY);
    let deadline = column_of(b, layout::DEADLINE);
    Guest {
        id,
        capacity,
        period,
        tasks,
        charge,
        marks,
        deferrable,
        run,
        every,
        deadline,
    }
}

// Whether the head is in its ranges.
fn head_in(b: &[u8; SIZE]) -> bool
    ensures { result ≡ guest_ok (guest_of b.now) }
{
    let capacity = words::word_at(b, layout::CAPACITY);
    let period = words::word_at(b, layout::PERIOD);
    plan::head_ok(id_of(b), capacity, period, tasks_of(b))
}

// Whether the tasks are in their ranges, and may start where their marks say.
#[tactic(auto, unfolding(plan::specs::Ranges::tasks_ok))]
fn tasks_in(b: &[u8; SIZE]) -> bool
    requires { (task_count b.now ≤ most_tasks) × (1 ≤ word b.now period_word) }
    ensures { result ≡ tasks_ok (guest_of b.now) }
{
    let run = column_of(b, layout::RUN);
    let every = column_of(b, layout::EVERY);
    let deadline = column_of(b, layout::DEADLINE);
    let marks = marks_of(b) as u16;
    let period = words::word_at(b, layout::PERIOD);
    plan::tasks_ok(marks, period, &run, &every, &deadline, tasks_of(b) as usize)
}

// Whether the block b passes, or else the number that refuses it; `placed` says that its place passes, `new` that its
// id does.
#[tactic(auto, using(crate::proofs::Reading::few_tasks, crate::proofs::Reading::some_period), unfolding(crate::specs::Reading::block_number, lists::specs::Refusals::refusal, lists::specs::Refusals::unless))]
pub fn block_number(b: &[u8; SIZE], placed: bool, new: bool) -> Result<(), u32>
    ensures { result ≡ unless_number (block_number b.now placed new) tt }
{
    if words::sum_words(b, layout::WORDS) != 0 {
        return Err(2);
    }
    if !(kind_ok(b) && placed) {
        return Err(3);
    }
    if !(head_in(b) && new) {
        return Err(4);
    }
    if !zeros_ok(b) {
        return Err(5);
    }
    if !tasks_in(b) {
        return Err(6);
    }
    Ok(())
}
