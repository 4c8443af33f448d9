// Text in pieces, written into a buffer of the caller's.
ghost use Rattle.std.specs.Prelude.{◌≡◌};
ghost use Rattle.listing.specs.Put.{piece_text, pieces_text, HasRoom, Puts};

use itoa::Buffer;

// A piece of a text: bytes as they are, or a number in decimal.
#[derive(Clone, Copy)]
pub(crate) enum Piece<'a> {
    Fixed(&'a [u8]),
    Number(u64),
}

// A text that is being written: the buffer that it stands in, which is the caller's and no `Vec`, and where it ends there.
#[derive(Drop)]
pub(crate) struct Text<'a> {
    pub(crate) buffer: &'a mut [u8],
    pub(crate) end: usize,
}

impl<'a> Text<'a> {
    // No text yet, at the start of a buffer.
    pub(crate) fn new(buffer: &'a mut [u8]) -> Text<'a>
        ensures same { result.buffer.ghost_name ≡ buffer.entry.ghost_name }
        ensures bytes { result.buffer.now ≡ buffer.old }
        ensures end { result.end ≡ 0 }
    {
        Text { buffer, end: 0 }
    }

    // Writes bytes.
    fn put_bytes(&mut self, bytes: &[u8])
        requires { HasRoom self.old bytes.now }
        ensures { Puts self.old self.new bytes.now }
    {
        let end = self.end + bytes.len();
        self.buffer[self.end..end].copy_from_slice(bytes);
        self.end = end;
    }

    fn put_piece(&mut self, piece: Piece)
        requires { HasRoom self.old (piece_text piece) }
        ensures { Puts self.old self.new (piece_text piece.entry) }
    {
        match piece {
            Piece::Fixed(bytes) => self.put_bytes(bytes),
            Piece::Number(n) => self.put_bytes(Buffer::new().format(n).as_bytes()),
        }
    }

    // Writes pieces, one after another.
    pub(crate) fn put_all(&mut self, pieces: &[Piece])
        requires { HasRoom self.old (pieces_text pieces.now) }
        ensures { Puts self.old self.new (pieces_text pieces.now) }
    {
        for piece in pieces {
            self.put_piece(*piece);
        }
    }
}
