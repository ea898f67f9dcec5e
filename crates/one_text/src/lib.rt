//! The tree and the order that a reply tells depend on the set of orders alone.
//!
//! What `solve`, `extend` and `meet` print as `tree` and `order` is the same for the same orders, whatever rows or
//! trees gave them, in whatever order they came, and by whichever of the commands. So is, of one matrix, the order that
//! `core` prints for each row of a core. Two runs of one command on the same files write the same, unless both tell a
//! cycle or a core. The functions here have no body: their contracts are the laws.
#![tactic(auto)]

ghost use Rattle.one_text.specs.One.{OneReplyLaw};
ghost use Rattle.one_text.specs.Laws.{CanonicalTextLaw, ToldLinesLaw, SameTextLaw, TextbookTextLaw, OneOrderLaw};

/// A reply with status 0 tells the canonical tree of the orders that it is about, and its leaves from left to right,
/// and has the two lines that say so. So two replies about the same orders tell the same tree and the same order; and
/// two replies to `solve` do, where their sides have the same textbook orders and neither instance is circular.
pub fn one_text_law()
    ensures canonical { CanonicalTextLaw }
    ensures lines { ToldLinesLaw }
    ensures same { SameTextLaw }
    ensures textbook { TextbookTextLaw }
{
    tree_theory::canonical_tree_law();
    pq_cli::meet_law();
    pq_cli::reply_law();
    tree_meet::common_law();
    verdict_replies::shown_law();
    verdict_text::one_verdict();
}

/// Of one matrix, for one core and one of its rows there is one order that the core may tell of the others.
pub fn one_order_law()
    ensures { OneOrderLaw }
{
    tree_theory::canonical_tree_law();
}

/// Two replies of a command to the same bytes have one status, and one text unless each of them tells an odd cycle, of
/// which there may be several. So two runs on the same files write the same, unless both tell a cycle or a core.
pub fn one_reply_law()
    ensures { OneReplyLaw }
{
    tree_theory::canonical_tree_law();
    clone_map::place_laws();
    command_input::instance_law();
    core_text::one_core();
    instance_model::textbook_law();
    order_list::first_orders_law();
    proper_interval::model_law();
    unit_model::one_rule_law();
    unit_model::unit_text_laws();
    verdict_replies::shown_law();
    verdict_text::one_verdict();
}
