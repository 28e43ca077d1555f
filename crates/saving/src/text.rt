//! A text laid into a buffer, byte after byte. What goes past the end of the buffer is counted and not written, so that
//! laying it into no buffer at all tells how long it is.
ghost use Rattle.std.specs.Prelude.{[], ◌∷◌, decimal};
ghost use Rattle.saving.specs.Laying.{Lays};

// The next byte goes to `end`, which stops at `usize::MAX`: no buffer is so long.
#[derive(Drop)]
pub(crate) struct Text<'b> {
    pub(crate) buffer: &'b mut [u8],
    pub(crate) end: usize,
}

impl Text<'_> {
    // Lays one byte.
    pub(crate) fn byte(&mut self, byte: u8)
        ensures { Lays (byte ∷ []) self.old self.new }
    {
        if self.end < self.buffer.len() {
            self.buffer[self.end] = byte;
        }
        self.end = self.end.saturating_add(1);
    }

    // Lays bytes in their order.
    pub(crate) fn bytes(&mut self, bytes: &[u8])
        ensures { Lays bytes.now self.old self.new }
    {
        for byte in bytes {
            self.byte(*byte);
        }
    }

    // Lays a number in decimal.
    pub(crate) fn number(&mut self, number: u16)
        ensures { Lays (decimal number) self.old self.new }
    {
        self.bytes(itoa::Buffer::new().format(number).as_bytes());
    }
}
