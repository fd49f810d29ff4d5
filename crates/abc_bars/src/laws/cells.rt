//! Laws of what the cells of a tune give.

ghost use Rattle.std.specs.Prelude.{◌≡◌, List};
ghost use Rattle.abc_bars_body.specs.Cell.{with_token};
ghost use Rattle.abc_bars_body.specs.Step.{entry_step};
ghost use Rattle.abc_bars.specs.LookBack.AfterBody.{body_after};
ghost use Rattle.abc_bars.specs.LookBack.Cells.{element_of};
ghost use Rattle.abc_bars.specs.LookBack.Place.{Place, result_at, place_following, view};
ghost use Rattle.abc_bars_body.specs.declared.body.Body.{Body};
ghost use Rattle.abc_bars_body.specs.declared.cell.CellResult.{CellResult};
ghost use Rattle.abc_scan.specs.declared.spanned.Spanned.{Spanned};
ghost use Rattle.abc_scan.specs.declared.token.TokenKind.{TokenKind};

/// If a cell is entered in the view of its place, the state after it is the view after it. The cell gives what each of its tokens
/// gives in the view of that token's own place.
#[tactic(auto, using(crate::proofs::LookBack::Places::stepped_back))]
pub fn cell_views()
    ensures { (place : Place) (cell : List (Spanned TokenKind)) →
        entry_step (view place) cell ≡ (view (place_following place cell), result_at place cell) }
{}

/// A token of a cell leaves the state that its element leaves, wherever it is in its line and in any broken rhythm.
#[tactic(auto, using(crate::proofs::LookBack::Tokens::with_kind_body))]
pub fn left_by_tokens()
    ensures { (was : CellResult) (body : Body) (token : Spanned TokenKind) (ahead : List (Spanned TokenKind)) →
        (with_token (record was { body = body }) token ahead).body ≡ body_after body (element_of token ahead) }
{}
