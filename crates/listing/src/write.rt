// A whole listing.
ghost use Rattle.std.specs.Prelude.{◌≡◌, ◌<◌, ◌≤◌, length, Ok, Err};
ghost use Rattle.std.specs.Result.{result_err};
ghost use Rattle.refusal.specs.Laws.{FirstBroken};
ghost use Rattle.refusal.specs.Refusals.{fault_in};
ghost use Rattle.listing.specs.Put.{put, Puts};
ghost use Rattle.listing.specs.Listings.{marks_text, listing_text, room_refusal, too_short, BufferBreaks};

use crate::marks::{Listing, Marks};
use crate::pieces::Text;
use refusal::{Fault, Refusal};

// A buffer of this many bytes has room for every listing.
pub const ROOM: usize = 2048;

const _: () = prove!(ROOM == 2048);

impl<'a> Text<'a> {
    // The listing of an accepted plan.
    fn put_marks(&mut self, marks: &Marks)
        requires start { self.old.end ≡ 0 }
        requires room { 2048 ≤ length self.old.buffer.now }
        ensures text { Puts self.old self.new (marks_text marks.now) }
        ensures short { self.new.end ≤ 2048 }
    {
        self.put_accepted(marks.tasks().len() as u32);
        self.put_parts(marks);
        self.put_tasks(marks);
    }

    // A listing.
    fn put_listing(&mut self, listing: &Listing)
        requires start { self.old.end ≡ 0 }
        requires room { 2048 ≤ length self.old.buffer.now }
        ensures text { Puts self.old self.new (listing_text listing.now) }
        ensures short { self.new.end ≤ 2048 }
    {
        match listing {
            Ok(marks) => self.put_marks(marks),
            Err(refusal) => self.put_refusal(*refusal),
        }
    }
}

// Whether a buffer is long enough for every listing, or the refusal of one that is not.
pub fn check_room(buffer: &[u8]) -> Result<(), Refusal>
    ensures { result_err result ≡ room_refusal (length buffer.now) }
{
    if buffer.len() < ROOM {
        return Err(Refusal::plain(Fault::BufferTooShort));
    }
    Ok(())
}

// Writes a listing at the start of a buffer, and says how many bytes it has; the rest of the buffer stays as it was. A
// buffer of less than 2,048 bytes is refused and stays as it was.
pub fn write_listing(buffer: &mut [u8], listing: &Listing) -> Result<usize, Refusal>
    ensures answer { 2048 ≤ length buffer.old → result ≡ Ok (length (listing_text listing.now)) }
    ensures text { 2048 ≤ length buffer.old → buffer.new ≡ put buffer.old 0 (listing_text listing.now) }
    ensures short { 2048 ≤ length buffer.old → length (listing_text listing.now) ≤ 2048 }
    ensures refused { length buffer.old < 2048 → result ≡ Err too_short }
    ensures kept { length buffer.old < 2048 → buffer.new ≡ buffer.old }
    ensures first { FirstBroken (BufferBreaks (length buffer.old)) (fault_in (result_err result)) }
{
    check_room(buffer)?;
    let mut text = Text::new(buffer);
    text.put_listing(listing);
    Ok(text.end)
}
