//! Rows of lists, and lists of rows: how they are read and written.

ghost use Rattle.std.specs.Prelude.{◌≡◌, ◌≤◌, ◌++◌, ◌∷◌, [], ◌<◌, length, All, IfOk, OnOk};
ghost use Rattle.std.specs.List.{flat_map};
ghost use Rattle.pws_base.specs.Fields.{GivesOrMemory};
ghost use Rattle.pws_msg.specs.RowFields.{rows_at, counted_at};
ghost use Rattle.pws_msg.specs.StatementTexts.{counted_text};

use crate::changes::{Checkpoint, Named, PRow, QRow, Seen};
use crate::wire::MOST_DIGESTS;
use pws_base::fields::{FieldError, FieldReader};
use pws_base::lists::Sequence;
use pws_base::memory::Memory;
use pws_base::shapes::Digest;
use pws_base::writers::Writer;
use std::alloc::Global;

/// What a list of a message is made of.
pub trait Row: Drop {
    ghost use Rattle.std.specs.Prelude.{List, ℕ, Result};
    ghost use Rattle.pws_base.specs.Fields.{Unread};
    ghost use Rattle.pws_base.specs.declared.fields.FieldFault.{FieldFault};

    /// What its reading gives.
    ghost row_at: { Unread → Result (Self × Unread) FieldFault };

    /// The bytes that spell it.
    ghost row_text: { Self → List ℕ };

    /// Its fields are in range.
    ghost is_lawful: { Self → Type 0 };

    /// Reads it.
    ///
    /// # Errors
    ///
    /// `Fault` where it isn't whole or out of range, and else `Memory` only.
    fn take(alloc: Global, fields: &mut FieldReader<'_>) -> Result<Self, FieldError>
        ensures read { GivesOrMemory (λ x. x) result fields.new (row_at fields.old) }
        ensures lawful { IfOk result is_lawful };

    /// Writes it; its fields are to be in range.
    ///
    /// # Errors
    ///
    /// `Memory` only.
    fn put(&self, text: &mut Writer) -> Result<(), Memory>
        requires { is_lawful self.now }
        ensures { OnOk result (text.new ≡ text.old ++ row_text self.now) };
}

/// Reads so many rows, one after the other.
pub fn take_rows<T: Row>(
    alloc: Global,
    fields: &mut FieldReader<'_>,
    count: u8,
) -> Result<Sequence<T>, FieldError>
    ensures read { GivesOrMemory (λ xs. xs) result fields.new (rows_at T.row_at count fields.old) }
    ensures lawful { IfOk result (λ xs. All T.is_lawful xs) }
    ensures count { IfOk result (λ xs. length xs ≡ count) }
{
    let mut rows = Sequence::new(alloc);
    for _ in 0..count {
        rows.push(T::take(alloc, fields)?)?;
    }
    Ok(rows)
}

/// Writes rows, one after the other.
pub fn put_rows<T: Row>(text: &mut Writer, rows: &[T]) -> Result<(), Memory>
    requires { All T.is_lawful rows.now }
    ensures { OnOk result (text.new ≡ text.old ++ flat_map T.row_text rows.now) }
{
    for row in rows.iter() {
        row.put(text)?;
    }
    Ok(())
}

/// Reads rows after their count, which is to be from `low` to `high`.
#[tactic(auto, unfolding(crate::specs::RowFields::counted_at), using(crate::proofs::Ranges::u8_range))]
pub fn take_counted<T: Row>(
    alloc: Global,
    fields: &mut FieldReader<'_>,
    low: u8,
    high: u8,
) -> Result<Sequence<T>, FieldError>
    ensures read { GivesOrMemory (λ xs. xs) result fields.new (counted_at T.row_at low high fields.old) }
    ensures lawful { IfOk result (λ xs. All T.is_lawful xs) }
    ensures some { IfOk result (λ xs. low ≤ length xs) }
    ensures few { IfOk result (λ xs. length xs ≤ high) }
{
    let count = fields.take_u8_within(low, high)?;
    take_rows(alloc, fields, count)
}

/// Writes rows after their count, which fits a byte.
pub fn put_counted<T: Row>(text: &mut Writer, rows: &[T]) -> Result<(), Memory>
    requires lawful { All T.is_lawful rows.now }
    requires few { length rows.now < 256 }
    ensures { OnOk result (text.new ≡ text.old ++ counted_text T.row_text rows.now) }
{
    text.put_u8(rows.len() as u8)?;
    put_rows(text, rows)
}

impl Row for Digest {
    ghost use Rattle.pws_base.specs.Fields.{digest_field};
    ghost use Rattle.pws_msg.specs.Rows.{IsDigest, digest_text};

    ghost row_at = { digest_field };

    ghost row_text = { digest_text };

    ghost is_lawful = { IsDigest };

    fn take(_alloc: Global, fields: &mut FieldReader<'_>) -> Result<Digest, FieldError> {
        Ok(fields.take_digest()?)
    }

    fn put(&self, text: &mut Writer) -> Result<(), Memory> {
        text.put_bytes(self.as_slice())
    }
}

impl Row for Checkpoint {
    ghost use Rattle.pws_msg.specs.Rows.{IsCheckpoint, checkpoint_text};
    ghost use Rattle.pws_msg.specs.RowFields.{checkpoint_at};

    ghost row_at = { checkpoint_at };

    ghost row_text = { checkpoint_text };

    ghost is_lawful = { IsCheckpoint };

    #[tactic(auto, unfolding(crate::specs::RowFields::checkpoint_at), using(crate::proofs::Ranges::u32_range))]
    fn take(_alloc: Global, fields: &mut FieldReader<'_>) -> Result<Checkpoint, FieldError> {
        let place = fields.take_view()?;
        let digest = fields.take_digest()?;
        Ok(Checkpoint { place, digest })
    }

    fn put(&self, text: &mut Writer) -> Result<(), Memory> {
        text.put_u32(self.place)?;
        text.put_bytes(self.digest.as_slice())
    }
}

impl Row for PRow {
    ghost use Rattle.pws_msg.specs.Rows.{IsPRow, p_row_text};
    ghost use Rattle.pws_msg.specs.RowFields.{p_row_at};

    ghost row_at = { p_row_at };

    ghost row_text = { p_row_text };

    ghost is_lawful = { IsPRow };

    #[tactic(auto, unfolding(crate::specs::RowFields::p_row_at), using(crate::proofs::Ranges::u32_range))]
    fn take(_alloc: Global, fields: &mut FieldReader<'_>) -> Result<PRow, FieldError> {
        let place = fields.take_number()?;
        let digest = fields.take_digest()?;
        let view = fields.take_view()?;
        Ok(PRow {
            place,
            digest,
            view,
        })
    }

    fn put(&self, text: &mut Writer) -> Result<(), Memory> {
        text.put_u32(self.place)?;
        text.put_bytes(self.digest.as_slice())?;
        text.put_u32(self.view)
    }
}

impl Row for Seen {
    ghost use Rattle.pws_msg.specs.Rows.{IsSeen, seen_text};
    ghost use Rattle.pws_msg.specs.RowFields.{seen_at};

    ghost row_at = { seen_at };

    ghost row_text = { seen_text };

    ghost is_lawful = { IsSeen };

    #[tactic(auto, unfolding(crate::specs::RowFields::seen_at), using(crate::proofs::Ranges::u32_range))]
    fn take(_alloc: Global, fields: &mut FieldReader<'_>) -> Result<Seen, FieldError> {
        let digest = fields.take_digest()?;
        let view = fields.take_view()?;
        Ok(Seen { digest, view })
    }

    fn put(&self, text: &mut Writer) -> Result<(), Memory> {
        text.put_bytes(self.digest.as_slice())?;
        text.put_u32(self.view)
    }
}

impl Row for QRow {
    ghost use Rattle.pws_msg.specs.Rows.{IsQRow, q_row_text};
    ghost use Rattle.pws_msg.specs.RowFields.{q_row_at};

    ghost row_at = { q_row_at };

    ghost row_text = { q_row_text };

    ghost is_lawful = { IsQRow };

    #[tactic(auto, unfolding(crate::specs::RowFields::q_row_at), using(crate::proofs::Ranges::u32_range))]
    fn take(alloc: Global, fields: &mut FieldReader<'_>) -> Result<QRow, FieldError> {
        let place = fields.take_number()?;
        let digests = take_counted(alloc, fields, 1, MOST_DIGESTS)?;
        Ok(QRow { place, digests })
    }

    fn put(&self, text: &mut Writer) -> Result<(), Memory> {
        text.put_u32(self.place)?;
        put_counted(text, self.digests.as_slice())
    }
}

impl Row for Named {
    ghost use Rattle.pws_msg.specs.Rows.{IsNamed, named_text};
    ghost use Rattle.pws_msg.specs.RowFields.{named_at};

    ghost row_at = { named_at };

    ghost row_text = { named_text };

    ghost is_lawful = { IsNamed };

    #[tactic(auto, unfolding(crate::specs::RowFields::named_at), using(crate::proofs::Ranges::u8_range))]
    fn take(_alloc: Global, fields: &mut FieldReader<'_>) -> Result<Named, FieldError> {
        let index = fields.take_index()?;
        let digest = fields.take_digest()?;
        Ok(Named { index, digest })
    }

    fn put(&self, text: &mut Writer) -> Result<(), Memory> {
        text.put_u8(self.index)?;
        text.put_bytes(self.digest.as_slice())
    }
}
