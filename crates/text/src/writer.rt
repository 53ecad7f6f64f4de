// Text put into a buffer, at a place or piece by piece.
ghost use Rattle.std.specs.Prelude.{◌≡◌, ◌+◌, ◌≤◌, length};
ghost use Rattle.text.specs.Put.{put_at};

// A buffer, and how much of it is written.
#[derive(Drop)]
pub struct Writer<'a> {
    buffer: &'a mut [u8],
    written: usize,
}

impl<'a> Writer<'a> {
    ghost use Rattle.text.specs.Writing.{Room, Puts};

    pub fn new(buffer: &'a mut [u8]) -> Writer<'a>
        ensures same_buffer { result.buffer.ghost_name ≡ buffer.entry.ghost_name }
        ensures bytes { result.buffer.now ≡ buffer.old }
        ensures none { result.written ≡ 0 }
    {
        Writer { buffer, written: 0 }
    }

    // Puts a text behind what is written.
    pub fn put(&mut self, text: &[u8])
        requires { Room text.now self.old }
        ensures { Puts text.now self.old self.new }
    {
        let end = self.written + text.len();
        self.buffer[self.written..end].copy_from_slice(text);
        self.written = end;
    }

    // How many bytes are written.
    pub fn written(&self) -> usize
        ensures { result ≡ self.now.written }
    {
        self.written
    }
}

// Puts a text into a buffer at a place, and answers the place after it.
pub fn put(buffer: &mut [u8], at: usize, text: &[u8]) -> usize
    requires { at + length text.now ≤ length buffer.old }
    ensures value { result ≡ at + length text.now }
    ensures buffer_after { buffer.new ≡ put_at buffer.old at text.now }
{
    let mut writer = Writer {
        buffer,
        written: at,
    };
    writer.put(text);
    writer.written()
}
