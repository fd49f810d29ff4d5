//! Pieces with marks of which ones follow each other.

ghost use Rattle.std.specs.Prelude.{◌≡◌, [], ◌∷◌, ◌++◌, IfOk, OnErr, OnOk, true};
ghost use Rattle.abc_fold.specs.Following.{AreMarked, FollowsLast};

use crate::{Fold, Piece};
use std::alloc::{AllocError, Global};
use std::marker::Model;

/// Pieces in order. The mark of a piece is set if it is known that it was entered in the very state in which the piece
/// before it was left. Contracts see the pieces.
#[derive(Drop)]
pub struct Pieces<F: Fold> {
    pieces: Vec<Piece<F>>,
    marks: Vec<bool>,
}

impl<F: Fold> Model for Pieces<F> {
    ghost use Rattle.std.specs.Prelude.{List};
    ghost use Rattle.abc_fold.specs.declared.piece.Piece.{Piece};
    ghost use Rattle.abc_fold.specs.Following.{HasMarks};

    ghost Value = { List (Piece F F.State F.Cell F.Items F.Work) };

    ghost view = { λ p. p.pieces.items };

    ghost invariant = { λ p. HasMarks p.pieces.items p.marks.items };
}

impl<F: Fold> Pieces<F> {
    /// No pieces.
    pub fn new(alloc: Global) -> Pieces<F>
        ensures { result ≡ [] }
    {
        Pieces {
            pieces: Vec::new(alloc),
            marks: Vec::new(alloc),
        }
    }

    /// An empty list with room for `room` pieces. It returns an error if an allocation fails.
    pub fn with_capacity(alloc: Global, room: usize) -> Result<Pieces<F>, AllocError>
        ensures { IfOk result (λ pieces. pieces ≡ []) }
    {
        Ok(Pieces {
            pieces: Vec::with_capacity(alloc, room)?,
            marks: Vec::with_capacity(alloc, room)?,
        })
    }

    /// Appends a piece. It may follow the last one or not. If an allocation fails, the pieces do not change.
    #[inline(always)]
    pub fn push(&mut self, piece: Piece<F>) -> Result<(), AllocError>
        ensures ok { OnOk result (self.new ≡ self.old ++ piece ∷ []) }
        ensures unchanged { OnErr result (self.new ≡ self.old) }
    {
        self.put(piece, false)
    }

    /// Appends a kept piece that was entered in the very state in which the last one was left, if there is one. If an
    /// allocation fails, the pieces do not change.
    #[inline(always)]
    pub fn push_following(&mut self, piece: Piece<F>) -> Result<(), AllocError>
        requires { FollowsLast self.old piece }
        ensures ok { OnOk result (self.new ≡ self.old ++ piece ∷ []) }
        ensures unchanged { OnErr result (self.new ≡ self.old) }
    {
        self.put(piece, true)
    }

    /// Appends a piece with its mark.
    #[inline(always)]
    fn put(&mut self, piece: Piece<F>, follows: bool) -> Result<(), AllocError>
        requires { follows ≡ true → FollowsLast self.old piece }
        ensures ok { OnOk result (self.new ≡ self.old ++ piece ∷ []) }
        ensures unchanged { OnErr result (self.new ≡ self.old) }
    {
        self.marks.push(follows)?;
        match self.pieces.push(piece) {
            Ok(()) => Ok(()),
            Err(refused) => {
                self.marks.pop();
                Err(refused.into())
            }
        }
    }

    /// The pieces.
    pub fn as_slice(&self) -> &[Piece<F>]
        ensures { result.now ≡ self.now }
    {
        &self.pieces
    }

    /// The mark of each piece.
    pub(crate) fn marks(&self) -> &[bool]
        ensures { AreMarked self.now result.now }
    {
        &self.marks
    }
}
