// Bytes that are read into a buffer.
ghost use Rattle.std.specs.Prelude.{◌≡◌, length, take, drop};

// So many bytes of these from a place on, as many as there are and the buffer has.
pub(crate) fn fill(bytes: &[u8], from: u64, into: &mut [u8]) -> usize
    ensures count { result ≡ length (take (length into.old) (drop from bytes.now)) }
    ensures bytes { take result into.new ≡ take (length into.old) (drop from bytes.now) }
{
    if from >= bytes.len() as u64 {
        return 0;
    }
    let rest = &bytes[from as usize..];
    let count = rest.len().min(into.len());
    into[..count].copy_from_slice(&rest[..count]);
    count
}
