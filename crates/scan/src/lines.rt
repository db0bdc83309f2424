// The lines of the output.
ghost use Rattle.std.specs.Prelude.{◌≡◌, ◌*◌, ◌≤◌, length};
ghost use Rattle.tree.specs.Refusal.{number_of};
ghost use Rattle.text.specs.Puts.{HasRoom, Writes};
ghost use Rattle.scan.specs.Program as Program;
ghost use Rattle.scan.specs.Promises.{side};

use text::Writer;
use tree::Refusal;

// A line that says how many pairs there are.
fn put_count(w: &mut Writer, n: u32)
    requires { HasRoom 17 w.old }
    ensures { Writes (Program.count_line n) w.old w.new }
{
    w.put_text(b"pairs ");
    w.put_decimal(n);
    w.put_text(b"\n");
}

// A line for the pair of a source and a target point.
fn put_pair(w: &mut Writer, source: u32, target: u32)
    requires { HasRoom 22 w.old }
    ensures { Writes (Program.pair_line source target) w.old w.new }
{
    w.put_decimal(source);
    w.put_text(b" ");
    w.put_decimal(target);
    w.put_text(b"\n");
}

// A line for each pair.
fn put_pairs(w: &mut Writer, sources: &[u32], targets: &[u32])
    requires { (length sources.now ≡ length targets.now) × HasRoom (22 * length sources.now) w.old }
    ensures { Writes (Program.pair_lines (side sources.now targets.now)) w.old w.new }
{
    for (&source, &target) in sources.iter().zip(targets) {
        put_pair(w, source, target);
    }
}

// The line of the mean squared error.
fn put_mse(w: &mut Writer, mse: f32)
    requires { HasRoom 13 w.old }
    ensures { Writes (Program.mse_line mse) w.old w.new }
{
    w.put_text(b"mse ");
    w.put_hex8(bits::f32_to_bits(mse));
    w.put_text(b"\n");
}

// All lines of a report.
pub fn put_report(w: &mut Writer, sources: &[u32], targets: &[u32], mse: f32)
    requires { (length sources.now ≡ length targets.now) × (length sources.now ≤ 1024) × HasRoom 22558 w.old }
    ensures { Writes (Program.report_lines (side sources.now targets.now) mse) w.old w.new }
{
    put_count(w, sources.len() as u32);
    put_pairs(w, sources, targets);
    put_mse(w, mse);
}

// The one line of a refusal.
pub fn put_refusal(w: &mut Writer, refusal: Refusal)
    requires { HasRoom 19 w.old }
    ensures { Writes (Program.refusal (number_of refusal)) w.old w.new }
{
    w.put_text(b"refused ");
    w.put_decimal(refusal.number());
    w.put_text(b"\n");
}
