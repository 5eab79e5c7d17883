ghost use Rattle.std.specs.Prelude.{◌≤◌, length, IfOk};
ghost use Rattle.event_relations.specs.Lexicons.{IsLexicon, ShowsWord};

use crate::kinds::kind_rows;
use crate::rows::empty_rows;
use crate::tables::word_rows;
use crate::words::Word;
use fer_events::Event;
use fer_list::Seq;
use model_reader::Expr;
use std::alloc::{AllocError, Global};

/// The rows of the words that relate two events by what they carry or by their numbers. They are made once for a list of
/// events: each takes a look at every pair, and a model may have thousands of words.
#[derive(Drop)]
pub struct Lexicon {
    pub po: Seq<u128>,
    pub id: Seq<u128>,
    pub any: Seq<u128>,
    pub file: Seq<u128>,
    pub block: Seq<u128>,
    pub dir: Seq<u128>,
    pub name: Seq<u128>,
    pub call: Seq<u128>,
    pub txn: Seq<u128>,
}

impl Lexicon {
    /// The words' rows over these events.
    pub fn new(alloc: Global, events: &[Event]) -> Result<Lexicon, AllocError>
        requires few { length events.now ≤ 128 }
        ensures { IfOk result (λ words. IsLexicon events.now words) }
    {
        let po = word_rows(alloc, events, Word::Po)?;
        let id = word_rows(alloc, events, Word::Id)?;
        let any = word_rows(alloc, events, Word::Any)?;
        let file = word_rows(alloc, events, Word::SameFile)?;
        let block = word_rows(alloc, events, Word::SameBlock)?;
        let dir = word_rows(alloc, events, Word::SameDir)?;
        let name = word_rows(alloc, events, Word::SameName)?;
        let call = word_rows(alloc, events, Word::SameCall)?;
        let txn = word_rows(alloc, events, Word::SameTxn)?;
        Ok(Lexicon {
            po,
            id,
            any,
            file,
            block,
            dir,
            name,
            call,
            txn,
        })
    }

    /// The rows of what the word relates; an operator relates none by itself.
    pub fn rows(&self, alloc: Global, events: &[Event], x: &Expr) -> Result<Seq<u128>, AllocError>
        requires few { length events.now ≤ 128 }
        requires made { IsLexicon events.now self.now }
        ensures { IfOk result (λ rows. ShowsWord events.now x.now rows) }
    {
        let rows = match x {
            Expr::Po => self.po.as_slice(),
            Expr::Id => self.id.as_slice(),
            Expr::Any => self.any.as_slice(),
            Expr::SameFile => self.file.as_slice(),
            Expr::SameBlock => self.block.as_slice(),
            Expr::SameDir => self.dir.as_slice(),
            Expr::SameName => self.name.as_slice(),
            Expr::SameCall => self.call.as_slice(),
            Expr::SameTxn => self.txn.as_slice(),
            Expr::Kinds { bits } => return kind_rows(alloc, events, *bits),
            _ => return empty_rows(alloc, events.len()),
        };
        let rows = Seq::from_slice(alloc, rows)?;
        Ok(rows)
    }
}
