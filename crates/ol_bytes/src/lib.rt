//! Fields of a format, written one after the other into a buffer, and read back. Numbers are big-endian.
#![tactic(auto)]

ghost use Rattle.std.specs.Prelude.{◌≡◌, ◌+◌, ◌-◌, ◌*◌, ◌≤◌, ◌++◌, EachIndex, length, replicate, slice_index, take};
ghost use Rattle.std.specs.Int.{from_be_bytes, w64};
ghost use Rattle.ol_bytes.specs.Numbers.{number_in, numbers_bytes};

/// Writes bytes from an index on, and gives the index behind them. Only what stands before that index is
/// promised, so that the writes of a chain add up from the front.
pub fn put(out: &mut [u8], at: usize, bytes: &[u8]) -> usize
    requires { at + length bytes.now ≤ length out.old }
    ensures next { result ≡ at + length bytes.now }
    ensures front { take result out.new ≡ take at out.old ++ bytes.now }
{
    let end = at + bytes.len();
    out[at..end].copy_from_slice(bytes);
    end
}

/// Writes numbers from an index on, 8 bytes each, and gives the index behind them.
pub fn put_numbers(out: &mut [u8], at: usize, numbers: &[u64]) -> usize
    requires { at + 8 * length numbers.now ≤ length out.old }
    ensures next { result ≡ at + 8 * length numbers.now }
    ensures front { take result out.new ≡ take at out.old ++ numbers_bytes numbers.now }
{
    let mut end = at;
    for number in numbers {
        end = put(out, end, &number.to_be_bytes());
    }
    end
}

/// Reads numbers of 8 bytes each, one after the other, as many as `numbers` has.
pub fn read_numbers(bytes: &[u8], numbers: &mut [u64])
    requires { 8 * length numbers.old ≤ length bytes.now }
    ensures { EachIndex numbers.new (λ k. slice_index numbers.new k ≡ number_in bytes.now k) }
{
    for (k, place) in numbers.iter_mut().enumerate() {
        let (_, behind) = bytes.split_at(8 * k);
        let (front, _) = behind.split_at(8);
        *place = number(front);
    }
}

/// Writes zeros from an index to the end.
pub fn clear_from(out: &mut [u8], at: usize)
    requires { at ≤ length out.old }
    ensures { out.new ≡ take at out.old ++ replicate (length out.old - at) 0 }
{
    out[at..].fill(0);
}

/// The number of 8 bytes.
pub fn number(bytes: &[u8]) -> u64
    requires { length bytes.now ≡ 8 }
    ensures { result ≡ from_be_bytes w64 bytes.now }
{
    let mut copy = [0; 8];
    copy.copy_from_slice(bytes);
    u64::from_be_bytes(copy)
}
