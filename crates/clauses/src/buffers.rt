// Writing into a caller's buffer.
ghost use Rattle.std.specs.Prelude.{◌≡◌, ◌+◌, ◌≤◌, ◌++◌, length, take, drop};

// Copies `from` into `out` at `at`; answers where the copy ends.
pub fn copy_at<T: Copy>(from: &[T], out: &mut [T], at: usize) -> usize
    requires { at + length from.now ≤ length out.old }
    ensures end { result ≡ at + length from.now }
    ensures buffer { out.new ≡ take at out.old ++ from.now ++ drop result out.old }
{
    let end = at + from.len();
    out[at..end].copy_from_slice(from);
    end
}
