// A guest's block found by the guest's id.
ghost use Rattle.planfile.specs.Promises.{Finds, FindsPlace};

use plan::Refusal;

// The place of a guest's block, or the refusal: the reading order, then 7.
pub fn find_place(bytes: &[u8], id: u32) -> Result<u32, Refusal>
    ensures { FindsPlace bytes.now id result }
{
    blockfile::check_blocks(bytes, true)?;
    blockfile::first_with(bytes, id).ok_or(Refusal {
        number: 7,
        place: 0,
    })
}

// The guest's block as it stands in the bytes; an empty part on a refusal.
pub fn find(bytes: &[u8], id: u32) -> &[u8]
    ensures { Finds bytes.now id result.now }
{
    match find_place(bytes, id) {
        Ok(place) => blockfile::block_at(bytes, place as usize),
        Err(_) => &bytes[..0],
    }
}
