ghost use Rattle.std.specs.Prelude.{◌≡◌, ◌++◌, take, drop, length, min};

/// Moves the first bytes of `left` to the front of `buf`, at most `chunk` of them, and says how many.
pub(crate) fn copy_front(left: &[u8], buf: &mut [u8], chunk: u32) -> usize
    ensures count { result ≡ min (min (length left.now) (length buf.old)) chunk }
    ensures moved { buf.new ≡ take result left.now ++ drop result buf.old }
{
    let n = left.len().min(buf.len()).min(chunk as usize);
    let (front, _) = buf.split_at_mut(n);
    front.copy_from_slice(&left[..n]);
    n
}
