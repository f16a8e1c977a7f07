// The first row that fails a test.
ghost use Rattle.std.specs.Prelude.{◌≡◌, ℕ, ◌<◌, true, false, IfSome, IfNone};

// The first of the numbers below `n` that does not pass.
pub fn first_bad<F: Fn(usize) -> bool>(n: usize, good: F) -> Option<usize>
    requires { (i : ℕ) → i < n → F.pre good i }
    ensures found { IfSome result (λ k. (k < n) × F.post good k false × ((i : ℕ) → i < k → F.post good i true)) }
    ensures none { IfNone result ((i : ℕ) → i < n → F.post good i true) }
{
    for i in 0..n {
        if !good(i) {
            return Some(i);
        }
    }
    None
}
