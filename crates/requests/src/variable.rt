// Is a file of fixed or of variable size? Its decoded entry says so.
ghost use Rattle.field.specs.Says.{Says};
ghost use Rattle.tables.specs.Books.{GoodSome};
ghost use Rattle.tables.specs.Views.{books_view, Parent};
ghost use Rattle.requests.specs.Named.{VariableSize};

use tables::books::Books;
use tables::entry::decode;
use tables::kind::is_variable;
use tables::kinds::Index;

pub fn variable_size(b: &Books<'_>, f: Index) -> bool
    requires good_some { GoodSome b.now.raw.now b.now.places }
    requires parent { Parent (books_view b.now) f.0 }
    ensures { Says result (VariableSize b.now.raw.now f.0) }
{
    is_variable(decode(b, f))
}
