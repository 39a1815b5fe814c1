ghost use Rattle.std.specs.Prelude.{◌≡◌, ◌≢◌, ℕ, List, Option, Result, None};
ghost use Rattle.ir_core.specs.{declared.event.Way.Way, Record.Record, Setting.Setting};
ghost use Rattle.ir_core.specs.{declared.event.Action.TheVariants.Restamp, declared.event.Verdict.Verdict};
ghost use Rattle.ir_core.specs.{declared.board.Board.Board, Entry.{Entry, ruled, acted, decided}, Meaning.Sight};
ghost use Rattle.ir_core.specs.{Plain.{IsPlainVerdict, IsPlainAct}, declared.opening.Opening.Opening};
ghost use Rattle.ir_core.specs.{declared.built.Install.Install, declared.event.Refused.Refused};
ghost use Rattle.ir_core.specs.{declared.event.Reply.Reply, declared.event.Step.Step, World.World};
ghost use Rattle.ir_core.specs.{Installed.AreEpochsOf, Avoided.{IsSoInRuns, AreDropsForUsedLinks, AreNoDropsForAvoided}};
ghost use Rattle.ir_core.specs.Lacking.{IsFrontOfTheWalk, IsSentOver, IsWayOver, LackNone};
ghost use Rattle.ir_core.specs.{declared.packet.Fate.TheVariants.Left, Sound.IsSound};
ghost use Rattle.ir_core.specs.Meaning.{AreBothMade};
ghost use Rattle.ir_model.specs.{Plan.{Plan, table_port}, Table.IsPrescribedWalk, Topology.{Topology, node_count}};
ghost use Rattle.ir_model.specs.Row.{Start};
ghost use Rattle.ir_model.specs.declared.Kind.{Kind, TheVariants.Tree};
ghost use Rattle.ir_plan.specs.{Building.Labelling, Starts.HaveSameTable};

/// A law of the definitions: a network that allows no restamp reads as one that knows of none. What
/// a node makes of a packet of one epoch is the verdict by that epoch. So an Act after a history
/// without restamps comes to that verdict, with no restamp, and leaves in the record what the
/// verdict leaves. With no restamp left, no packet has to be restamped.
pub fn without_restamps()
    ensures verdict { (setting : Setting) (s : Sight) (u : ℕ) (way : Way) (r : Record)
        → IsPlainVerdict setting s u way r }
    ensures act { (setting : Setting) (log : List Entry) (u : ℕ) → IsPlainAct setting log u }
    ensures journey { (u : ℕ) (way : Way) (v : Verdict) (r : Record) → ruled u way None v r ≡ acted u way v r }
    ensures action { (plan : Plan) (b : Board) (way : Way) (at stamp dest : ℕ)
        → decided plan b way at stamp dest 0 ≢ Restamp }
{}

/// A law of runs: where no step of a run wanted memory, its epochs were built from just what
/// `installs` gives for the same opening and the same steps. So boards and plans do not depend on
/// the steps that `installs` passes over.
pub fn epochs_of_installs()
    ensures { (opening : Opening) (steps : List Step) (replies : List (Result Reply Refused)) (world : World)
        (installs : List Install) → AreEpochsOf opening steps replies world installs }
{}

/// A law of runs: a packet is dropped for a link that is down only by a plan that was made while the
/// link was up and heeded, the plan of its present epoch. So epochs that are installed while a link
/// is avoided drop no packet for it. Where no packet has an epoch from before the `Avoid` when the
/// link goes down, and the injector stamps with none, none is dropped for it.
pub fn drops_for_used_links()
    ensures used { IsSoInRuns AreDropsForUsedLinks }
    ensures avoided { IsSoInRuns AreNoDropsForAvoided }
{}

/// A law of plans: two plans of one kind over one network that are labelled by the same have the
/// same labels; the same table and rows too, where the kind is not Tree. So a run and its check go
/// by the same ways.
pub fn made_plan_is_determined()
    ensures order { (labels : Labelling) (kind : Kind) (topology : Topology) (p q : Plan)
        → AreBothMade labels kind topology p q → p.order ≡ q.order }
    ensures labels { (labels : Labelling) (kind : Kind) (topology : Topology) (p q : Plan)
        → AreBothMade labels kind topology p q → p.labels ≡ q.labels }
    ensures tables { (labels : Labelling) (kind : Kind) (topology : Topology) (p q : Plan) → kind ≢ Tree
        → AreBothMade labels kind topology p q → HaveSameTable (node_count topology) p q }
    ensures rows { (labels : Labelling) (kind : Kind) (topology : Topology) (p q : Plan) → kind ≢ Tree
        → AreBothMade labels kind topology p q → p.rows ≡ q.rows }
{}

/// A law of nodes that may lack their row of a packet's epoch, as routers on many machines do: each
/// has the whole row of the epoch's plan or none, whenever the packet comes. The packet has a way. It
/// is a prefix of the walk that the plan's full table prescribes, and it is all of it or ended at a
/// node that lacked its row. Where none does it is all of the walk. The record of such a packet is
/// sound as one that is left.
pub fn ways_over_lacking_rows()
    ensures exists { (plan : Plan) (found : ℕ → ℕ → Option (List Start)) (u d : ℕ)
        → IsSentOver plan found u d
        → (way : List ℕ) × IsWayOver plan found u d way }
    ensures front { (plan : Plan) (found : ℕ → ℕ → Option (List Start)) (u d : ℕ)
        → IsSentOver plan found u d
        → (way : List ℕ) → IsWayOver plan found u d way → IsFrontOfTheWalk plan found u d way }
    ensures all { (plan : Plan) (found : ℕ → ℕ → Option (List Start)) (u d : ℕ) → IsSentOver plan found u d
        → LackNone plan found → (way : List ℕ) → IsWayOver plan found u d way
        → IsPrescribedWalk plan.topology (table_port plan) u d way }
    ensures sound { (plan : Plan) (found : ℕ → ℕ → Option (List Start)) (r : Record)
        → IsSentOver plan found r.source r.dest → r.fate ≡ Left → IsWayOver plan found r.source r.dest r.hops
        → IsSound plan r }
{}
