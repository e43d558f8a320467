// The place of a tag.
ghost use Rattle.std.specs.Prelude.{◌≡◌, ◌≤◌, length};
ghost use Rattle.sheet.specs.Cards.{place_below};
ghost use Rattle.signing.specs.Sign.{place_of};

// The first of `count` tags that is `tag`, where there is one.
pub fn place_of(tags: &[u32], count: usize, tag: u32) -> Option<usize>
    requires { count ≤ length tags.now }
    ensures { result ≡ place_below count (place_of count tags.now tag) }
{
    for k in 0..count {
        if tags[k] == tag {
            return Some(k);
        }
    }
    None
}
