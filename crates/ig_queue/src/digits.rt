ghost use Rattle.std.specs.Prelude.{◌≡◌, ◌≢◌, ◌≤◌, ◌<◌, ◌^◌, ◌++◌, ℕ, List as list, IfSome, IsNone, length};
ghost use Rattle.ig_defs.specs.QueueNames.{digits};

/// The number that these decimal digits write; `None` where a byte is no digit.
fn number_of(text: &[u8]) -> Option<u64>
    requires { length text.now ≤ 19 }
    ensures small { IfSome result (λ v. v < 10 ^ length text.now) }
    ensures some { IfSome result (λ v. text.now ≡ digits (length text.now) v) }
    ensures none { IsNone result → (v : ℕ) → text.now ≢ digits (length text.now) v }
{
    let mut number = 0u64;
    for c in text {
        if !c.is_ascii_digit() {
            return None;
        }
        number = number * 10 + u64::from(*c - b'0');
    }
    Some(number)
}

/// What comes after the mark.
fn after_mark<'a>(text: &'a [u8], mark: &[u8]) -> Option<&'a [u8]>
    ensures some { IfSome result (λ rest. text.now ≡ mark.now ++ rest.now) }
    ensures none { IsNone result → (rest : list ℕ) → text.now ≢ mark.now ++ rest }
{
    text.strip_prefix(mark)
}

/// The number that the first `len` bytes write, and what comes after the mark that follows them.
pub(crate) fn take_number<'a>(text: &'a [u8], len: usize, mark: &[u8]) -> Option<(u64, &'a [u8])>
    requires { len ≤ 19 }
    ensures small { IfSome result (λ p. p.0 < 10 ^ len) }
    ensures some { IfSome result (λ p. text.now ≡ digits len p.0 ++ (mark.now ++ p.1.now)) }
    ensures none { IsNone result → (v : ℕ) (rest : list ℕ) → text.now ≢ digits len v ++ (mark.now ++ rest) }
{
    let (head, tail) = text.split_at_checked(len)?;
    let number = number_of(head)?;
    Some((number, after_mark(tail, mark)?))
}
