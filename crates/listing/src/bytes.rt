// Bytes written one by one. A slice copied whole is a call of memmove, which whoever links the library would have to bring.
ghost use Rattle.text.specs.Writing.{Puts};

pub(crate) fn put_each(out: &mut [u8], at: usize, bytes: &[u8]) -> usize
    ensures { Puts out.old at bytes.now out.new result }
{
    let mut end = at;
    for b in bytes {
        end = text::put_byte(out, end, *b);
    }
    end
}
