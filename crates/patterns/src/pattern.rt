// The wildcard match: it recurses on what is left of pattern and name, and the sum of their lengths falls.
// It answers three ways, so that a `?` tries no further once no later start can match either: the cost is polynomial.
ghost use Rattle.std.specs.Prelude.{◌≡◌, true};
ghost use Rattle.patterns.specs.Pattern.{matches};
ghost use Rattle.patterns.specs.Three.{stands_for, three_way, Differs};

// Does the name match?
#[derive(Clone, Copy, PartialEq, Eq)]
enum Match {
    Yes,
    No,
    // No, and no tail of the name does.
    NoTail,
}

// May the pattern's byte q, which is no `?`, stand for c?
fn stands_for(q: u8, c: u8) -> bool
    ensures { result ≡ stands_for q c }
{
    q == b'*' || q == c
}

// Does the name's first byte tell that it does not match? Then no call is spent on it.
fn differs(pattern: &[u8], name: &[u8]) -> bool
    ensures { result ≡ true → Differs pattern.now name.now }
{
    match pattern {
        [] | [b'?', ..] => false,
        [q, ..] => match name {
            [] => false,
            [c, ..] => !stands_for(*q, *c),
        },
    }
}

fn three_way(pattern: &[u8], name: &[u8]) -> Match
    ensures { result ≡ three_way pattern.now name.now }
{
    match pattern {
        [] => match name {
            [] => Match::Yes,
            [_, ..] => Match::No,
        },
        [b'?', after @ ..] => match name {
            [] => match three_way(after, name) {
                Match::No => Match::NoTail,
                answer => answer,
            },
            [_, rest @ ..] if differs(after, name) => three_way(pattern, rest),
            [_, rest @ ..] => match three_way(after, name) {
                Match::No => three_way(pattern, rest),
                answer => answer,
            },
        },
        [q, after @ ..] => match name {
            [] => Match::NoTail,
            [c, rest @ ..] if stands_for(*q, *c) => three_way(after, rest),
            [_, ..] => Match::No,
        },
    }
}

// Does the pattern match the name?
pub fn name_matches(pattern: &[u8], name: &[u8]) -> bool
    ensures { result ≡ matches pattern.now name.now }
{
    matches!(three_way(pattern, name), Match::Yes)
}
