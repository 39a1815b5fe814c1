//! The forms of lines.
ghost use Rattle.std.specs.Prelude.{◌≡◌, true};
ghost use Rattle.ir_model.specs.Text.{words_of};
ghost use Rattle.ir_json.specs.Forms.{word_at, has_link, figure_form, act_form, step_form, head_form, row_form, form_of, listed, plain, further_held, is_ascii, is_ascii_further, IsForm};
ghost use Rattle.ir_json.specs.JsonText.{lead};

use crate::fill::first_word;
use crate::shape::Shape;
use crate::words::is;

const PLAN_ROW: &str = "{\"node\":$,\"label\":#,\"intervals\":[";

const NODES_HEAD: &str = "{$:$,\"nodes\":#,\"intervals\":#,\"first\":#,\"last\":#,\"rows\":[";

const WALK_ROW: &str = "{\"node\":$,\"label\":#,\"start\":#,\"end\":#,\"next\":$,\"weight\":#}";

const COMPARED_ROW: &str =
    "{\"kind\":$,\"numbering\":$,\"intervals\":#,\"greatest-row\":#,\"bits\":#,\"mean-stretch\":{\"walks\":<,\"distances\":>},\"worst-stretch\":{\"walk\":<,\"distance\":>},\"dependencies\":$}";

const FAILURES_HEAD: &str =
    "{$:$,\"kind\":$,\"nodes\":#,\"links\":#,\"intervals\":#,\"greatest-row\":#,\"bits\":#,\"mean-stretch\":{\"walks\":<,\"distances\":>},\"worst-stretch\":{\"walk\":<,\"distance\":>},\"dependencies\":$,\"failures\":[";

const FAILURES_HEAD_BESIDE: &str =
    "{$:$,\"kind\":$,\"nodes\":#,\"links\":#,\"intervals\":#,\"greatest-row\":#,\"bits\":#,\"mean-stretch\":{\"walks\":<,\"distances\":>},\"worst-stretch\":{\"walk\":<,\"distance\":>},\"dependencies\":$,\"together\":$,\"failures\":[";

const FAILURES_ROW: &str =
    "{\"link\":[$,$],\"intervals\":#,\"greatest-row\":#,\"bits\":#,\"mean-stretch\":{\"walks\":<,\"distances\":>},\"worst-stretch\":{\"walk\":<,\"distance\":>},\"dependencies\":$}";

const FAILURES_ROW_BESIDE: &str =
    "{\"link\":[$,$],\"intervals\":#,\"greatest-row\":#,\"bits\":#,\"mean-stretch\":{\"walks\":<,\"distances\":>},\"worst-stretch\":{\"walk\":<,\"distance\":>},\"dependencies\":$,\"together\":$}";

const FAILURES_CUT: &str = "{\"link\":[$,$],\"disconnected\":true~}";

const LOSSES_ROW: &str =
    "{\"node\":$,\"intervals\":#,\"greatest-row\":#,\"bits\":#,\"mean-stretch\":{\"walks\":<,\"distances\":>},\"worst-stretch\":{\"walk\":<,\"distance\":>},\"dependencies\":$}";

const LOSSES_ROW_BESIDE: &str =
    "{\"node\":$,\"intervals\":#,\"greatest-row\":#,\"bits\":#,\"mean-stretch\":{\"walks\":<,\"distances\":>},\"worst-stretch\":{\"walk\":<,\"distance\":>},\"dependencies\":$,\"together\":$}";

const LOSSES_CUT: &str = "{\"node\":$,\"disconnected\":true~}";

const LOSSES_EMPTY: &str = "{\"node\":$,\"empty\":true~}";

const DIFF_HEAD: &str =
    "{$:[$,$],\"nodes\":#,\"changed\":#,\"relabelled\":#,\"removed\":#,\"put\":#,\"rows\":[";

const DIFF_ROW: &str = "{\"node\":$,\"was\":#,\"label\":#,\"remove\":[";

const PREFIXES_ROW: &str = "{\"node\":$,\"label\":#,\"entries\":[";

const PREFIX: &str = "{\"value\":<,\"length\":>,\"next\":?}";

const RANGES_ROW: &str = "{\"node\":$,\"label\":#,\"ranges\":[";

const TRACE_ROW: &str =
    "{\"id\":#,\"epoch\":#,\"from\":$,\"to\":$,\"weight\":#,\"fate\":$,\"hops\":[";

const TRACE_ROW_WITH_LINK: &str =
    "{\"id\":#,\"epoch\":#,\"from\":$,\"to\":$,\"weight\":#,\"fate\":$,\"link\":[$,$],\"hops\":[";

const RESTAMPS_ROW: &str = "{\"id\":#,\"from\":$,\"to\":$,\"weight\":#,\"fate\":$,\"segments\":[";

const RESTAMPS_ROW_WITH_LINK: &str =
    "{\"id\":#,\"from\":$,\"to\":$,\"weight\":#,\"fate\":$,\"link\":[$,$],\"segments\":[";

const INJECT: &str = "{\"line\":#,\"event\":$,\"from\":$,\"to\":$,\"packet\":#,\"epoch\":#}";

const ACT_ON: &str = "{\"line\":#,\"event\":$,\"node\":$,\"packet\":#,\"epoch\":#,~\"next\":$}";

const ACT_WITH_LINK: &str =
    "{\"line\":#,\"event\":$,\"node\":$,\"packet\":#,\"epoch\":#,\"fate\":$,\"link\":[$,$]}";

const ACT_END: &str = "{\"line\":#,\"event\":$,\"node\":$,\"packet\":#,\"epoch\":#,\"fate\":$}";

const FINDING: &str = "{~\"line\":#,\"finding\":$}";

/// What the words after a line's front are.
#[derive(Clone, Copy)]
pub enum Items {
    NoItems,
    Names,
    /// Each two words in this template.
    Pairs(&'static str),
    Segments,
    /// Each `- START` or `+ START NEIGHBOUR`.
    Changes,
}

/// The template of a line's front, and what those words are that it has no sign for.
#[derive(Clone, Copy)]
pub struct Form {
    pub front: &'static str,
    pub items: Items,
}

/// The form of a line that ends with a list.
fn listed(front: &'static str, items: Items) -> Form
    requires front { is_ascii front.now ≡ true }
    requires items { is_ascii_further (further_held items) ≡ true }
    ensures { IsForm (listed front.now (further_held items)) result }
{
    Form { front, items }
}

/// The form of a line that is its front.
fn plain(front: &'static str) -> Form
    requires { is_ascii front.now ≡ true }
    ensures { IsForm (plain front.now) result }
{
    listed(front, Items::NoItems)
}

/// The word at a place of a line, none being empty.
fn word_at(line: &[u8], place: usize) -> &[u8]
    ensures { result.now ≡ word_at (words_of line.now) place }
{
    let mut rest = line;
    for _skipped in 0..place {
        rest = first_word(rest).1;
    }
    first_word(rest).0
}

/// Whether the fate at a place of a line has the names of a link after it.
fn has_link(line: &[u8], place: usize) -> bool
    ensures { result ≡ has_link (words_of line.now) place }
{
    let word = word_at(line, place);
    is(word, "down") || is(word, "full")
}

fn figure_form(line: &[u8]) -> Form
    ensures { IsForm (figure_form (words_of line.now)) result }
{
    let first = word_at(line, 0);
    let second = word_at(line, 1);
    if is(first, "stats") {
        plain("$:$,\"nodes\":#")
    } else if is(first, "greatest-row") {
        plain("$:{\"node\":$,\"intervals\":#}")
    } else if is(first, "worst") {
        plain("$:{\"from\":$,\"to\":$,\"walk\":#,\"distance\":#}")
    } else if is(first, "compactness") {
        plain("$:{\"node\":$,\"neighbour\":$,\"intervals\":#}")
    } else if is(first, "bits") {
        plain("$:{\"rows\":#,\"tables\":#}")
    } else if is(first, "landmarks") {
        listed("$:{\"nodes\":[", Items::Names)
    } else if is(second, "acyclic") {
        plain("$:$")
    } else if is(second, "cycle") {
        listed("$:{$:[", Items::Names)
    } else {
        plain("$:#")
    }
}

/// The form of an Act, by what became of its packet.
fn act_form(line: &[u8]) -> Form
    ensures { IsForm (act_form (words_of line.now)) result }
{
    if is(word_at(line, 5), "sent") {
        plain(ACT_ON)
    } else if has_link(line, 5) {
        plain(ACT_WITH_LINK)
    } else {
        plain(ACT_END)
    }
}

/// The form of a line of a run's steps, by what stands after its number.
fn step_form(line: &[u8]) -> Form
    ensures { IsForm (step_form (words_of line.now)) result }
{
    let event = word_at(line, 1);
    if is(event, "refused") {
        listed("{\"line\":#,~\"refused\":$,\"event\":[", Items::Names)
    } else if is(event, "inject") {
        plain(INJECT)
    } else if is(event, "take") {
        if is(word_at(line, 3), "from") {
            plain("{\"line\":#,\"event\":$,\"node\":$,~\"from\":$,\"packet\":#}")
        } else {
            plain("{\"line\":#,\"event\":$,\"node\":$,~\"packet\":#}")
        }
    } else if is(event, "read") {
        plain("{\"line\":#,\"event\":$,\"node\":$,\"version\":#}")
    } else if is(event, "act") {
        act_form(line)
    } else if is(event, "install") || is(event, "renumber") {
        plain("{\"line\":#,\"event\":$,\"kind\":$,\"root\":$,\"epoch\":#}")
    } else if is(event, "learn") || is(event, "retire") {
        plain("{\"line\":#,\"event\":$,\"epoch\":#}")
    } else {
        plain("{\"line\":#,\"event\":$,\"link\":[$,$]}")
    }
}

/// The form of the first line of a text.
fn head_form(shape: Shape, line: &[u8]) -> Form
    ensures { IsForm (head_form shape (words_of line.now)) result }
{
    match shape {
        Shape::Plan => plain("{$:$,\"nodes\":#,\"intervals\":#,\"rows\":["),
        Shape::Nodes => plain(NODES_HEAD),
        Shape::Order => plain("$"),
        Shape::Walk => plain("{$:$,\"from\":$,\"to\":$,\"address\":#,\"weight\":#,\"hops\":["),
        Shape::Stats => figure_form(line),
        Shape::Compare => plain("{$:{\"nodes\":#,\"links\":#},\"plans\":["),
        Shape::Diff => plain(DIFF_HEAD),
        Shape::Failures | Shape::Losses if word_at(line, 11).is_empty() => plain(FAILURES_HEAD),
        Shape::Failures | Shape::Losses => plain(FAILURES_HEAD_BESIDE),
        Shape::Prefixes => plain("{$:$,\"nodes\":#,\"bits\":#,\"entries\":#,\"rows\":["),
        Shape::Ranges => plain("{$:$,\"nodes\":#,\"count\":#,\"rows\":["),
        Shape::Trace | Shape::Restamps => plain("{$:#,\"packets\":["),
        Shape::Steps => plain("{$:#,\"events\":["),
        Shape::Check if is(word_at(line, 0), "ok") => plain("{$:#}"),
        Shape::Check => plain(FINDING),
    }
}

/// The form of a further line, by its place.
fn row_form(shape: Shape, place: usize, line: &[u8]) -> Form
    ensures { IsForm (row_form shape place (words_of line.now)) result }
{
    match shape {
        Shape::Plan | Shape::Nodes => listed(PLAN_ROW, Items::Pairs("{\"start\":#,\"next\":$}")),
        Shape::Order => plain("$"),
        Shape::Walk if word_at(line, 2).is_empty() => plain("{\"node\":$,\"label\":#}"),
        Shape::Walk => plain(WALK_ROW),
        Shape::Stats => figure_form(line),
        Shape::Compare if place == 1 => plain(""),
        Shape::Compare if is(word_at(line, 0), "tables") => plain("$:{~~~\"bits\":#}"),
        Shape::Compare => plain(COMPARED_ROW),
        Shape::Failures if is(word_at(line, 2), "disconnected") => plain(FAILURES_CUT),
        Shape::Failures if word_at(line, 8).is_empty() => plain(FAILURES_ROW),
        Shape::Failures => plain(FAILURES_ROW_BESIDE),
        Shape::Losses if is(word_at(line, 1), "disconnected") => plain(LOSSES_CUT),
        Shape::Losses if is(word_at(line, 1), "empty") => plain(LOSSES_EMPTY),
        Shape::Losses if word_at(line, 7).is_empty() => plain(LOSSES_ROW),
        Shape::Losses => plain(LOSSES_ROW_BESIDE),
        Shape::Diff => listed(DIFF_ROW, Items::Changes),
        Shape::Prefixes => listed(PREFIXES_ROW, Items::Pairs(PREFIX)),
        Shape::Ranges => listed(RANGES_ROW, Items::Pairs("{\"from\":<,\"to\":>,\"next\":$}")),
        Shape::Trace if has_link(line, 5) => listed(TRACE_ROW_WITH_LINK, Items::Names),
        Shape::Trace => listed(TRACE_ROW, Items::Names),
        Shape::Restamps if has_link(line, 4) => listed(RESTAMPS_ROW_WITH_LINK, Items::Segments),
        Shape::Restamps => listed(RESTAMPS_ROW, Items::Segments),
        Shape::Steps => step_form(line),
        Shape::Check => plain(FINDING),
    }
}

/// The form of a line, by the shape of its text, by its place, counted from 0, and by its words.
pub fn form_of(shape: Shape, place: usize, line: &[u8]) -> Form
    ensures { IsForm (form_of shape place (words_of line.now)) result }
{
    if place == 0 {
        head_form(shape, line)
    } else {
        row_form(shape, place, line)
    }
}

/// What is before the line at a place.
pub fn lead(shape: Shape, place: usize, line: &[u8]) -> &'static str
    ensures { result.now ≡ lead shape place (words_of line.now) }
{
    if matches!(shape, Shape::Compare) && place > 1 && is(word_at(line, 0), "tables") {
        "\n],\n"
    } else if place > shape.first_row() {
        ",\n"
    } else if place == shape.first_row() {
        "\n"
    } else {
        ""
    }
}
