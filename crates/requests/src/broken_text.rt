// Which rule the card breaks, as text: the rule, the kind of place and the place, a line each; or the number that refuses the books.
ghost use Rattle.std.specs.Prelude.{◌≤◌, length};
ghost use Rattle.requests.specs.Diagnosis.{place_lines, none_line, fault_lines, ShortText, DiagnosisText};

use crate::broken_rule::broken_rule;
use crate::text::{Text, refused_text};
use examination::fault::Fault;

// The three lines; `kind` is the second with its line feed.
fn place_text(rule: u32, kind: &[u8], place: u32) -> Text
    requires { length kind.now ≤ 12 }
    ensures { ShortText (place_lines rule kind.now place) result }
{
    let mut text = Text::new();
    text.push_line(b"rule=R", rule);
    text.push_text(kind);
    text.push_line(b"place=", place);
    text
}

fn none_text() -> Text
    ensures { ShortText none_line result }
{
    let mut text = Text::new();
    text.push_text(b"rule=none\n");
    text
}

fn fault_text(found: Option<Fault>) -> Text
    ensures { ShortText (fault_lines found) result }
{
    match found {
        None => none_text(),
        Some(Fault::AtZone(rule, z)) => place_text(rule, b"kind=zone\n", z.0),
        Some(Fault::AtSector(rule, s)) => place_text(rule, b"kind=sector\n", s.0),
        Some(Fault::AtIndex(rule, i)) => place_text(rule, b"kind=index\n", i.0),
        Some(Fault::AtCount(rule)) => place_text(rule, b"kind=count\n", 0),
    }
}

// The text of the answer.
pub fn broken_text(b: &[u8], withheld: &[u32]) -> Text
    ensures { DiagnosisText b.now withheld.now result }
{
    match broken_rule(b, withheld) {
        Ok(found) => fault_text(found),
        Err(why) => refused_text(why),
    }
}
