// A row of the plan, written as 15 words of 64 bits.
ghost use Rattle.std.specs.Prelude.{◌≡◌, ◌++◌, ◌≤◌, drop, length};
ghost use Rattle.rules.specs.Rows.{row_words};

use rules::row::Row;

// Writes a row at the start of the rest of the lent table.
pub fn write(rest: &mut [u64], row: Row)
    requires { 15 ≤ length rest.old }
    ensures { rest.new ≡ row_words row ++ drop 15 rest.old }
{
    // Word by word: where an array of the words is copied, a plan takes 1.2 times as long.
    let way = row.way;
    rest[0] = row.block;
    rest[1] = row.flow;
    rest[2] = row.round;
    rest[3] = row.turn;
    rest[4] = row.balance;
    rest[5] = row.hold;
    rest[6] = row.stage;
    rest[7] = way.one.start;
    rest[8] = way.one.finish;
    rest[9] = way.two.start;
    rest[10] = way.two.finish;
    rest[11] = way.three.start;
    rest[12] = way.three.finish;
    rest[13] = way.four.start;
    rest[14] = way.four.finish;
}
