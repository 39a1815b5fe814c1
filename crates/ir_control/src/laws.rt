//! Laws of the definitions, each the contract of a function with an empty body.
ghost use Rattle.std.specs.Prelude.{◌≡◌, List, length};
ghost use Rattle.ir_core.specs.{declared.command.Command.Command, Record.Record};
ghost use Rattle.ir_worker.specs.declared.node.Node.{Node};
ghost use Rattle.ir_control.specs.{declared.injector.Injector.Injector, declared.net.Net.Net};
ghost use Rattle.ir_control.specs.{declared.report.Report.Report, Reports.{HaveSameRecords, IsReport}};
ghost use Rattle.ir_control.specs.{Answers.CommandAnswer, Lives.AreSoundByPlans, Avoided.AreLiveDropsForUsedLinks};

/// What the nodes and the injector of a net hold determines each record of their report: two reports of them have the
/// same records, in the same order.
pub fn report_is_determined()
    ensures { (net : Net) (nodes : List Node) (injector : Injector) (report other : Report)
        → IsReport net nodes injector report → IsReport net nodes injector other
        → HaveSameRecords report other }
{}

/// A law of live runs, each of which has an answer to each command and records that are sound by the
/// plans of its epochs. A packet is dropped for a link that is down only by a plan that was made while
/// the link was up and heeded, the plan of its present epoch. So epochs that are installed while a
/// link is avoided drop no packet for it.
pub fn live_drops_for_used_links()
    ensures { (net : Net) (commands : List Command) (answers : List CommandAnswer) (records : List Record)
        → length answers ≡ length commands → AreSoundByPlans net commands answers records
        → AreLiveDropsForUsedLinks net commands answers records }
{}
