// What two byte strings have in common at the front.
ghost use Rattle.std.specs.Prelude.{◌≡◌};
ghost use Rattle.keys.specs.Shared.{shared, LongestShared};

// How many bytes two byte strings share at the front.
pub fn shared_len(a: &[u8], b: &[u8]) -> usize
    ensures value { result ≡ shared a.now b.now }
    ensures longest { LongestShared a.now b.now result }
{
    // Of one length, so that one test tells the end of both.
    let both = a.len().min(b.len());
    a[..both]
        .iter()
        .zip(&b[..both])
        .take_while(|(x, y)| x == y)
        .count()
}
