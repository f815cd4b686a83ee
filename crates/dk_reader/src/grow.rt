// What the keywords of a text say.
ghost use Rattle.std.specs.Prelude.{◌≡◌, map, IfOk};
ghost use Rattle.std.specs.List.{All};
ghost use Rattle.dk_reader.specs.Document.{field_at, document_of};
ghost use Rattle.dk_reader.specs.Readable.{IsReadable, AreReadable};

use crate::document::{Document, Field, Fields};
use crate::read::values_of;
use dk_grammar::{Item, Tree};
use std::alloc::{AllocError, Global};

/// A keyword, and each of its values as it reads.
fn field_at(alloc: Global, text: &[u8], item: &Item) -> Result<Field, AllocError>
    requires { All (IsReadable text.now) item.now.values }
    ensures { IfOk result (λ f. f ≡ field_at text.now item.now) }
{
    let values = values_of(alloc, text, item.values.items())?;
    Ok(Field {
        block: item.block,
        entry: item.entry,
        keyword: item.keyword,
        values,
    })
}

/// Keywords with their values.
fn fields_of(alloc: Global, text: &[u8], items: &[Item]) -> Result<Fields, AllocError>
    requires { AreReadable text.now items.now }
    ensures { IfOk result (λ fs. fs ≡ map (field_at text.now) items.now) }
{
    let mut fields = Vec::with_capacity(alloc, items.len())?;
    for item in items {
        fields.push(field_at(alloc, text, item)?)?;
    }
    Ok(Fields::of_vec(fields))
}

/// The document of a tree: each value of each keyword as it reads.
pub fn document_of(alloc: Global, text: &[u8], tree: Tree) -> Result<Document, AllocError>
    requires { AreReadable text.now tree.items }
    ensures { IfOk result (λ d. d ≡ document_of text.now tree) }
{
    let fields = fields_of(alloc, text, tree.items.items())?;
    Ok(Document {
        blocks: tree.blocks,
        fields,
    })
}
