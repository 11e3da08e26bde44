// The four ends of a temporal operator, found in its record, and the template of its condition.
ghost use Rattle.std.specs.Prelude.{◌≡◌, true, false, ◌+◌, ◌≤◌, ◌<◌, length};
ghost use Rattle.text.specs.Text.{text};
ghost use Rattle.tree.specs.Tests.{ends_of};
ghost use Rattle.text.specs.EndWords.{Is, IsOperand, Are, slot, temporal_of, node_ends};
ghost use Rattle.text.specs.NodeWords.{Node};
ghost use Rattle.text.specs.RecordWords.{Stands};
ghost use Rattle.literal.specs.declared.Writing.{Writing};
ghost use Rattle.tree.specs.Tree.{Tree, Settings};
ghost use Rattle.sql.specs.Template.{held, fill};
ghost use Rattle.tree.specs.Limits.{tree_limit};
ghost use Rattle.tree.specs.Kinds.{DYADIC};
ghost use Rattle.class.specs.ClassWords.{temporal_number};

use crate::classes::is_temporal_number;
use crate::records::{OPERAND, end_of, is_kind};
use operand::{End, Operand};
use record::{BODY, KIND};
use sql::Template;
use tree::{DATE, DYADIC, ID, INTERVAL, NULL, TIMESTAMP, UNBOUNDED};

// The end whose record lies from a to z.
fn end_at(s: &[u8], a: usize, z: usize) -> End
    requires { (length s.now ≤ tree_limit) × (a ≤ length s.now) × (z ≤ length s.now) }
    ensures { (x : Tree) → Stands s.now a z x → Is s.now result x }
{
    // No record has fewer bytes.
    if s.len() - a < BODY {
        return End::Null;
    }
    match record::word_at(s, a + KIND) {
        NULL => End::Null,
        UNBOUNDED => End::Open,
        DATE => End::Instant(a as u16, z as u16),
        TIMESTAMP => End::Instant(a as u16, z as u16),
        ID => End::Column(a as u16, z as u16),
        _ => End::Other(a as u16, z as u16),
    }
}

fn operand_at(s: &[u8], a: usize, z: usize) -> Operand
    requires { (length s.now ≤ tree_limit) × (a ≤ length s.now) × (z ≤ length s.now) }
    ensures { (x : Tree) → Stands s.now a z x → IsOperand s.now result x }
{
    if s.len() - a < BODY {
        return Operand::Single(End::Null);
    }
    if record::word_at(s, a + KIND) == INTERVAL {
        let p = a + BODY;
        let m = end_of(s, p);
        let start = end_at(s, p, m);
        return Operand::Interval(start, end_at(s, m, z));
    }
    Operand::Single(end_at(s, a, z))
}

// The ends of a temporal node whose second operand starts at m.
pub(crate) fn temporal_ends(s: &[u8], m: usize) -> [End; 4]
    requires { (length s.now ≤ tree_limit) × (14 ≤ length s.now) × (m ≤ length s.now) }
    ensures { (t u : Tree) → Stands s.now 8 m t → Stands s.now m (length s.now) u → Are s.now result (ends_of t u) }
{
    let a = operand_at(s, OPERAND, m);
    operand::unfold_expressions(a, operand_at(s, m, s.len()))
}

#[tactic(auto, using(crate::proofs::Tests::tests), unfolding(crate::specs::EndWords::temporal_of))]
pub(crate) fn is_temporal(kind: usize, op: usize) -> bool
    ensures { result ≡ temporal_of kind op }
{
    // The operator first: with the kind first the walk took 1 to 4 % more instructions.
    is_temporal_number(op) && kind == DYADIC
}

// The template of a temporal node. It is not taken into the node writer, whose frame is laid once for each level: a caller of the controller's
// is promised less than 4 KiB of stack (include/wenduulig.h).
#[inline(never)]
pub(crate) fn template_of(s: &[u8], op: usize, m: usize, e: [End; 4]) -> Template
    requires { (8 ≤ m) × (m ≤ length s.now) }
    ensures text { (w : Writing) (g : Settings) (t : Tree) → Node s.now DYADIC op m t → temporal_number op ≡ true → Are s.now e (node_ends t) → text w g t ≡ fill (slot w g (node_ends t)) (held result) }
    ensures len { result.len ≤ 24 }
{
    let a = is_kind(&s[OPERAND..m], INTERVAL);
    let b = is_kind(&s[m..], INTERVAL);
    sql::temporal_sql(op, a, b, e)
}
