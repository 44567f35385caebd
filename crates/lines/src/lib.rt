// The lines of a listing, each put behind what the page has. `specs/Lines.antt` has the bytes of each.
#![tactic(auto)]

ghost use Rattle.std.specs.Prelude.{[], ◌*◌, ◌≡◌, ◌≤◌, length, true};
ghost use Rattle.loadfile.specs.Calls.{shown_name};
ghost use Rattle.rules.specs.Rows.{row_at as Rows·row_at, rows_in};
ghost use Rattle.line.specs.Pages.{Put};
ghost use Rattle.lines.specs.Lines.{counts_line, named_row, refused_line, row_lines};
ghost use Rattle.lines.specs.Lines.{runs as Lines·runs, shown as Lines·shown, start_finish};

use line::Page;
use load::refusal::Refusal;
use rules::answer::Summary;
use rules::row::Row;
use rules::stages::{Span, Way};

#[tactic(auto, using(line::proofs::Pages::put_both), unfolding(crate::specs::Lines::refused_line))]
pub fn refused(page: &mut Page, why: Refusal)
    ensures { Put page.old (refused_line why) page.new }
{
    page.text(b"refused");
    page.spaced(why.number());
    page.end();
}

#[tactic(auto, using(line::proofs::Pages::put_both), unfolding(crate::specs::Lines::counts_line))]
pub fn counts(page: &mut Page, summary: Summary)
    ensures { Put page.old (counts_line summary) page.new }
{
    page.decimal(summary.blocks);
    page.spaced(summary.turns);
    page.spaced(summary.rounds);
    page.spaced(summary.held);
    page.spaced(summary.ticks);
    page.spaced(summary.end);
    page.end();
}

// A name, or a dash where it is empty.
#[tactic(auto, using(crate::proofs::Left::shown_dash, crate::proofs::Left::shown_all))]
fn shown(page: &mut Page, name: &[u8])
    ensures { Put page.old (Lines·shown name.now) page.new }
{
    page.text(if name.is_empty() { b"-" } else { name });
}

// The name shown for a flow, with an empty standing list.
fn name(page: &mut Page, file: &[u8], flow: u64)
    ensures { Put page.old (Lines·shown (shown_name file.now [] flow)) page.new }
{
    shown(page, loadfile::name(file, b"", flow as usize));
}

// Start and finish at a stage.
#[tactic(auto, using(line::proofs::Pages::put_both), unfolding(crate::specs::Lines::start_finish))]
fn run(page: &mut Page, span: Span)
    ensures { Put page.old (start_finish true span) page.new }
{
    page.spaced(span.start);
    page.put(b'-');
    page.decimal(span.finish);
}

// The runs at the stages that the load has.
#[tactic(auto, using(line::proofs::Pages::put_both, line::proofs::Pages::put_nothing, crate::proofs::Left::runs_are, crate::proofs::Left::runs_next))]
fn runs(page: &mut Page, stages: usize, way: Way)
    ensures { Put page.old (Lines·runs stages way) page.new }
{
    for &span in [way.one, way.two, way.three, way.four].iter().take(stages) {
        run(page, span);
    }
}

#[tactic(auto, using(line::proofs::Pages::put_both), unfolding(crate::specs::Lines::row_line))]
fn row(page: &mut Page, file: &[u8], stages: usize, row: Row)
    ensures { Put page.old (named_row file.now stages row) page.new }
{
    name(page, file, row.flow);
    page.spaced(row.block);
    page.spaced(row.round);
    page.spaced(row.turn);
    page.spaced(row.balance);
    page.spaced(row.hold);
    page.spaced(row.stage);
    runs(page, stages, row.way);
    page.end();
}

// The row that these words hold: block, flow, round, turn, balance, hold, dominant stage, and the runs. The caller knows that they
// are there, and `From` could not ask it.
#[tactic(auto, unfolding(rules::specs::Rows::row_at))]
fn row_at(words: &[u64]) -> Row
    requires { 15 ≤ length words.now }
    ensures { result ≡ Rows·row_at words.now }
{
    Row {
        block: words[0],
        flow: words[1],
        round: words[2],
        turn: words[3],
        balance: words[4],
        hold: words[5],
        stage: words[6],
        way: Way {
            one: Span {
                start: words[7],
                finish: words[8],
            },
            two: Span {
                start: words[9],
                finish: words[10],
            },
            three: Span {
                start: words[11],
                finish: words[12],
            },
            four: Span {
                start: words[13],
                finish: words[14],
            },
        },
    }
}

// The rows of so many blocks, from the start of the table on.
pub fn rows(page: &mut Page, file: &[u8], stages: usize, blocks: u64, table: &[u64])
    requires { 15 * blocks ≤ length table.now }
    ensures { Put page.old (row_lines file.now stages (rows_in blocks table.now)) page.new }
{
    for words in table.chunks_exact(15).take(blocks as usize) {
        row(page, file, stages, row_at(words));
    }
}
