// Report: the books in eleven lines of text, or the number that refuses them.
ghost use Rattle.std.specs.Prelude.{◌≡◌, ◌+◌, ◌≤◌, ◌++◌, length};
ghost use Rattle.requests.specs.Report.{figures_of, size_lines, file_lines, state_lines, lines_of, Small, Reported};

pub use crate::text::Text;
use crate::text::refused_text;
use crate::used::used_sectors;
use examination::check::check;
use tables::books::Books;
use tables::open::open_zones;
use tables::sector1;
use tables::sizes::ZONE;

// What the report tells.
#[derive(Clone, Copy)]
pub struct Figures {
    pub zones: u32,
    pub sectors: u32,
    pub used: u32,
    pub indexes: u32,
    pub free: u32,
    pub active: u32,
    pub deleted: u32,
    pub system: u32,
    pub directory: u32,
    pub openzones: u32,
    pub mounted: u32,
}

fn gather(b: &Books<'_>) -> Figures
    ensures { result ≡ figures_of b.now.places b.now.raw.now }
{
    Figures {
        zones: b.places.zones,
        sectors: ZONE * b.places.zones,
        used: used_sectors(b),
        indexes: b.places.indexes,
        free: sector1::free_indexes(b.raw),
        active: sector1::active_files(b.raw),
        deleted: sector1::deleted_files(b.raw),
        system: sector1::system_files(b.raw),
        directory: sector1::directory_files(b.raw),
        openzones: open_zones(b),
        mounted: sector1::flag(b.raw),
    }
}

// Three functions, as the definition has three parts: tried as one of eleven lines, no proof was found.
fn push_sizes(text: &mut Text, f: Figures)
    requires { length text.old + length (size_lines f) ≤ 192 }
    ensures { text.new ≡ text.old ++ size_lines f }
{
    text.push_line(b"zones=", f.zones);
    text.push_line(b"sectors=", f.sectors);
    text.push_line(b"used=", f.used);
    text.push_line(b"indexes=", f.indexes);
}

fn push_files(text: &mut Text, f: Figures)
    requires { length text.old + length (file_lines f) ≤ 192 }
    ensures { text.new ≡ text.old ++ file_lines f }
{
    text.push_line(b"free_indexes=", f.free);
    text.push_line(b"active=", f.active);
    text.push_line(b"deleted=", f.deleted);
    text.push_line(b"system=", f.system);
}

fn push_state(text: &mut Text, f: Figures)
    requires { length text.old + length (state_lines f) ≤ 192 }
    ensures { text.new ≡ text.old ++ state_lines f }
{
    text.push_line(b"directory=", f.directory);
    text.push_line(b"open_zones=", f.openzones);
    text.push_line(b"mounted=", f.mounted);
}

fn figures_text(f: Figures) -> Text
    requires { Small f }
    ensures { (result ≡ lines_of f) × (length result ≤ 148) }
{
    let mut text = Text::new();
    push_sizes(&mut text, f);
    push_files(&mut text, f);
    push_state(&mut text, f);
    text
}

// The text of the report.
pub fn report(b: &[u8], withheld: &[u32]) -> Text
    ensures { Reported b.now withheld.now result }
{
    match check(b, withheld) {
        Ok(p) => figures_text(gather(&Books { raw: b, places: p })),
        Err(why) => refused_text(why),
    }
}
