//! Laws of the tables, each the contract of a function with an empty body.
ghost use Rattle.std.specs.Prelude.{◌≡◌, ◌≢◌, ◌^◌, ℕ, Bool, List, None, Some, false, true};
ghost use Rattle.ir_model.specs.{Graph.{Name, is_name}, Plan.{IsPlan, Plan}, Topology.Topology};
ghost use Rattle.ir_prefix.specs.declared.line.TableLine.{TableLine};
ghost use Rattle.ir_show.specs.PlanText.{node_by};
ghost use Rattle.ir_trace.specs.Written.{name_at};
ghost use Rattle.ir_exports.specs.{PrefixesText.{AgreeByLines, goal_text}, Tables.AreTablesOf};
ghost use Rattle.ir_exports.specs.Sent.{FrontsKeepToWalks, GoAllTheWay, LabelsGoAllTheWay, PartsKeepToWalks};

/// If every node has only the first ones of its lines, forwarding still follows a first part of the prescribed walk.
/// That is so for any number and any first node. The walk goes to the node of that label, or of the last label for a
/// number beyond the labels.
pub fn beginnings_of_lines_keep_to_walks()
    ensures { (plan : Plan) (bits : ℕ) (tables : List (List TableLine)) → IsPlan plan
        → AreTablesOf false plan bits tables → FrontsKeepToWalks plan bits tables }
{}

/// Where each node has any of its disjoint lines, what is sent to a label goes through the first nodes of the
/// prescribed walk to the node with that label.
pub fn disjoint_lines_keep_to_walks()
    ensures { (plan : Plan) (bits : ℕ) (tables : List (List TableLine)) → IsPlan plan
        → AreTablesOf true plan bits tables → PartsKeepToWalks plan bits tables }
{}

/// Where each node has all of its lines, disjoint or not, what is sent to a label goes all the way to the node with
/// that label. Where they are not disjoint, what is sent to a number beyond the labels goes all the way to the node
/// with the last one.
pub fn lines_go_all_the_way()
    ensures labels { (is_disjoint : Bool) (plan : Plan) (bits : ℕ) (tables : List (List TableLine)) → IsPlan plan
        → AreTablesOf is_disjoint plan bits tables → LabelsGoAllTheWay plan bits tables }
    ensures beyond { (plan : Plan) (bits : ℕ) (tables : List (List TableLine)) → IsPlan plan
        → AreTablesOf false plan bits tables → GoAllTheWay plan bits tables (2 ^ bits) }
{}

/// Two texts of the tables of one plan have the same width, and as many lines for each node; they are one text where
/// they have the same lines.
pub fn text_is_determined_by_lines()
    ensures { (is_disjoint : Bool) (nodes : List Name) (plan : Plan) (text other : List ℕ)
        → AgreeByLines is_disjoint nodes plan text other }
{}

/// No neighbour's name, whatever it is, is the word for no neighbour.
pub fn neighbour_is_not_none()
    ensures { (nodes : List Name) (topology : Topology) (u p : ℕ)
        → is_name (name_at nodes (node_by topology u p)) ≡ true
        → goal_text nodes topology u (Some p) ≢ goal_text nodes topology u None }
{}
