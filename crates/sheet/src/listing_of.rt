// The listing of a sheet.
ghost use Rattle.std.specs.Prelude.{◌≡◌, ◌≤◌, length, take, drop, IfOk, OnOk, OnErr};
ghost use Rattle.std.specs.Result.{result_err};
ghost use Rattle.refusal.specs.Laws.{FirstBroken};
ghost use Rattle.refusal.specs.Refusals.{fault_in};
ghost use Rattle.words.specs.Split.{OnlyCut};
ghost use Rattle.listing.specs.Listings.{listing_text, room_refusal, BufferBreaks};
ghost use Rattle.sheet.specs.Marking.{Listed, OnlyListed};

use crate::marking::marked;
use listing::{Listing, check_room, write_listing};
use refusal::Refusal;

// What is listed of a sheet, with the laws that nothing else is, and that its lines are the only ones.
#[tactic(auto, using(crate::proofs::Telling::only_listed))]
fn listing_of(sheet: &[u8]) -> Listing
    ensures listed { Listed sheet.now (listing_text result) }
    ensures only { OnlyListed sheet.now }
    ensures lines { OnlyCut 10 sheet.now }
{
    marked(sheet)
}

// Writes the listing of a sheet at the start of a buffer, and says how many bytes it has; the rest of the buffer stays as it
// was. A buffer of less than 2,048 bytes is refused before the sheet is read, and stays as it was.
pub fn list(sheet: &[u8], buffer: &mut [u8]) -> Result<usize, Refusal>
    ensures answer { result_err result ≡ room_refusal (length buffer.old) }
    ensures listed { IfOk result (λ n. Listed sheet.now (take n buffer.new)) }
    ensures first { FirstBroken (BufferBreaks (length buffer.old)) (fault_in (result_err result)) }
    ensures room { IfOk result (λ n. n ≤ length buffer.new) }
    ensures rest { IfOk result (λ n. drop n buffer.new ≡ drop n buffer.old) }
    ensures refused { OnErr result (buffer.new ≡ buffer.old) }
    ensures only { OnOk result (OnlyListed sheet.now) }
    ensures lines { OnOk result (OnlyCut 10 sheet.now) }
{
    check_room(buffer)?;
    let listing = listing_of(sheet);
    write_listing(buffer, &listing)
}
