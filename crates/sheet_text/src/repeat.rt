// Whether a table repeats a type or a label. Those that are the same have the same words.
ghost use Rattle.std.specs.Prelude.{◌≡◌};
ghost use Rattle.sheet.specs.Sheet.{repeated};
ghost use Rattle.sheet_text.specs.Internal.Repeats.{CountsFit, repeats_in};

use labels::LABEL_SIZE;
use sheet::{COMPOUNDS, WORDS, Word, label_place, parts_place};

// Whether one of the items comes again.
fn repeated<T: PartialEq>(items: &[T]) -> bool
    ensures { result ≡ repeated (λ x y. T.eq y x) items.now }
{
    let mut rest = items;
    while let Some((one, after)) = rest.split_first() {
        if after.contains(one) {
            return true;
        }
        rest = after;
    }
    false
}

// Whether the table repeats a type or a label.
pub(crate) fn repeats(table: &[Word; WORDS]) -> bool
    requires { CountsFit table.now }
    ensures { result ≡ repeats_in table.now }
{
    let types = &table[parts_place(COMPOUNDS)..parts_place(sheet::types(table))];
    let labels = &table[label_place(0)..label_place(sheet::labels(table))];
    repeated(types.as_chunks::<2>().0) || repeated(labels.as_chunks::<LABEL_SIZE>().0)
}
