// A block written: the record tested, and its words put straight into the lent buffer.
ghost use Rattle.std.specs.Prelude.{◌≡◌, ◌++◌, ◌≤◌, length, replicate, drop};
ghost use Rattle.lists.specs.Places.{nth};
ghost use Rattle.lists.specs.Refusals.{unless_number};
ghost use Rattle.words.specs.Bytes.{with_word, bytes_of};
ghost use Rattle.plan.specs.Marks.{marks_of};
ghost use Rattle.plan.specs.Ranges.{most_tasks};
ghost use Rattle.block.specs.Layout.{block_size, block_words, kind_place_word, extended_kind, last_place, marks_server_word, halves};
ghost use Rattle.blockwriter.specs.Writing.{kind_for, with_head, words_of, block_of, write_number};

use block::layout;
use plan::Guest;

// Whether the writer writes the guest there into a buffer of so many bytes, or else the number that refuses it.
#[tactic(auto, unfolding(crate::specs::Writing::write_number, plan::specs::Ranges::tasks_ok, lists::specs::Refusals::refusal, lists::specs::Refusals::unless))]
pub fn write_number(g: &Guest, place: u32, size: usize) -> Result<(), u32>
    ensures { result ≡ unless_number (write_number g.now place size) tt }
{
    if size < layout::SIZE {
        return Err(12);
    }
    if place > layout::LAST_PLACE {
        return Err(3);
    }
    if !plan::head_ok(g.id, g.capacity, g.period, g.tasks) {
        return Err(4);
    }
    let n = g.tasks as usize;
    if !plan::tasks_ok(g.marks, g.period, &g.run, &g.every, &g.deadline, n) {
        return Err(6);
    }
    if g.deferrable > 0 {
        return Err(23);
    }
    Ok(())
}

// The kind that a Periodic guest with these marks is written in.
fn kind_for(marks: u32) -> u32
    ensures { (result ≡ kind_for marks 0) × (result ≤ extended_kind) }
{
    if 1 <= marks {
        layout::EXTENDED_KIND
    } else {
        layout::PLAIN_KIND
    }
}

// Kind, place and marks of a Periodic guest put in.
fn put_kind(buf: &mut [u8], marks: u16, tasks: u32, place: u32)
    requires { (block_size ≤ length buf.old) × ((place ≤ last_place) × (tasks ≤ most_tasks)) }
    ensures { buf.new
        ≡ with_word
        (with_word buf.old kind_place_word (halves (kind_for (marks_of marks tasks) 0) place))
        marks_server_word (halves (marks_of marks tasks) 0) }
{
    let live = plan::live_marks(marks, tasks as usize);
    let kind = kind_for(live);
    words::put_word(buf, layout::KIND_PLACE, kind + layout::HALF * place);
    words::put_word(buf, layout::MARKS_SERVER, live);
}

// The first 512 bytes set to zero, and the words of a Periodic guest's head put in.
fn put_head(g: &Guest, place: u32, buf: &mut [u8])
    requires { (block_size ≤ length buf.old)
        × ((place ≤ last_place) × ((g.now.tasks ≤ most_tasks) × (g.now.deferrable ≡ 0))) }
    ensures { buf.new
        ≡ bytes_of (nth (with_head g.now place (replicate block_words 0))) block_words ++ drop block_size buf.old }
{
    let tasks_charge = g.tasks + layout::HALF * u32::from(g.charge);
    words::put_zeros(buf, layout::SIZE);
    put_kind(buf, g.marks, g.tasks, place);
    words::put_word(buf, layout::ID, g.id);
    words::put_word(buf, layout::CAPACITY, g.capacity);
    words::put_word(buf, layout::PERIOD, g.period);
    words::put_word(buf, layout::TASKS_CHARGE, tasks_charge);
}

// The head and the guest's entries put in: the block's words but for the check.
fn put_entries(g: &Guest, place: u32, buf: &mut [u8])
    requires { (block_size ≤ length buf.old)
        × ((place ≤ last_place) × ((g.now.tasks ≤ most_tasks) × (g.now.deferrable ≡ 0))) }
    ensures { buf.new ≡ bytes_of (nth (words_of g.now place)) block_words ++ drop block_size buf.old }
{
    put_head(g, place, buf);
    for i in 0..g.tasks as usize {
        blockparts::put_entry(buf, layout::RUN, i, g.run[i], g.every[i], g.deadline[i]);
    }
}

// The block of a Periodic guest put into the first 512 bytes.
pub fn put_block(g: &Guest, place: u32, buf: &mut [u8])
    requires { (block_size ≤ length buf.old)
        × ((place ≤ last_place) × ((g.now.tasks ≤ most_tasks) × (g.now.deferrable ≡ 0))) }
    ensures { buf.new ≡ block_of g.now place ++ drop block_size buf.old }
{
    put_entries(g, place, buf);
    blockparts::put_check(buf);
}
