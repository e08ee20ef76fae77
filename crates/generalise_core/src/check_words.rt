// The words of the command `check`.
ghost use Rattle.std.specs.Prelude.{◌↔◌, IsTrue, IfOk, IfSome, IfNone};
ghost use Rattle.generalise_core.specs.CheckWords.{CheckRequest, SpellsCheck, IsCheck};
ghost use Rattle.generalise_core.specs.CheckOrders.{check_request};

use crate::Order;
use crate::draft::read_draft;
use agg_base::{NoMemory, Words};
use std::alloc::Global;

/// Whether the words begin with the command.
pub(crate) fn is_check(words: &Words) -> bool
    ensures { IsTrue result ↔ IsCheck words.now }
{
    words.count() > 0 && words.word(0) == "check"
}

/// What is to be checked. The options are those of `generalise` without `--splits`; the number of splits in the answer means nothing.
pub(crate) fn read_check(alloc: Global, words: &Words) -> Result<Option<Order<'_>>, NoMemory>
    ensures found { IfOk result (λ r. IfSome r (λ a. SpellsCheck words.now (check_request a))) }
    ensures none { IfOk result (λ r. IfNone r ((q : CheckRequest) → ¬ (SpellsCheck words.now q))) }
{
    if !is_check(words) || words.count() == 0 {
        return Ok(None);
    }
    let Some(draft) = read_draft(alloc, words)? else {
        return Ok(None);
    };
    if draft.has_splits() {
        return Ok(None);
    }
    draft.order(alloc)
}
