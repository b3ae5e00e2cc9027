// Bytes and texts put into a buffer.
ghost use Rattle.std.specs.Prelude.{◌+◌, ◌^◌, ◌<◌, ◌≡◌, length, set};
ghost use Rattle.text_buffer.specs.Writing.{Put};

// Puts a byte at a place, if the buffer has it.
pub fn put_byte(buf: &mut [u8], at: usize, b: u8)
    ensures { buf.new ≡ set buf.old at b }
{
    if at < buf.len() {
        buf[at] = b;
    }
}

// Puts a text from a place on.
pub fn put_text(buf: &mut [u8], at: usize, text: &[u8]) -> usize
    requires { at + length text.now < 2 ^ 64 }
    ensures { Put buf.old at text.now buf.new result }
{
    for (i, b) in text.iter().enumerate() {
        put_byte(buf, at + i, *b);
    }
    at + text.len()
}
