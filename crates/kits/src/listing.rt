// What a block's lines hold.
ghost use Rattle.kits.specs.Listing.{CutTo, all_blank, used_lines};
ghost use Rattle.std.specs.Prelude.{◌≡◌, not, count_by};

// How many bytes are left when the blanks at the end are cut off.
pub fn cut_length(bytes: &[u8]) -> usize
    ensures { CutTo bytes.now result }
{
    bytes
        .iter()
        .rposition(|&byte| byte != 32)
        .map_or(0, |last| last + 1)
}

// Has a line a byte that is no blank?
#[tactic(auto, using(crate::proofs::LineLaws::used_if_cut))]
fn is_used(line: &[u8]) -> bool
    ensures { result ≡ not (all_blank line.now) }
{
    cut_length(line) > 0
}

// How many lines are not blank.
fn count_used(lines: &[[u8; 64]]) -> usize
    ensures { result ≡ count_by (λ line. not (all_blank line)) lines.now }
{
    lines.iter().filter(|line| is_used(*line)).count()
}

// How many of a block's sixteen lines are not blank.
#[tactic(auto, using(crate::proofs::LineLaws::used_of_lines))]
pub fn used_lines(block: &[u8; 1024]) -> usize
    ensures { result ≡ used_lines 16 block.now }
{
    let (lines, _) = block.as_chunks();
    count_used(lines)
}
