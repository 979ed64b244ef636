// The words of names: none has a register before lowering, and afterwards only protected names keep theirs.
//
// `clear_names` gives the table in which lowering starts, `protect_names` is shown equal to `nameWords` of `rules`. A caller owes names that
// stand in the file, and a word for each (`NamesReady`). Their count stands beside the words, since C lends more of these.
ghost use Rattle.std.specs.Prelude.{◌≡◌, List, ◌++◌, map, ℕ, ◌≤◌, length, drop, replicate};
ghost use Rattle.std.proofs.Math.Option.{Option, none};
ghost use Rattle.rules.specs.Tree.{Name};
ghost use Rattle.rules.specs.Lowered.{protects, nameWords};
ghost use Rattle.tree.specs.Files.{Placed};
ghost use Rattle.codegen.specs.Does.{regWord};
ghost use Rattle.program.specs.Program.{optionsTold};
ghost use Rattle.program.specs.Names.{NamesReady};

use names::{after, is_global};
use params::limits::{HEAD_BITS, MARK, NAME_BITS};
use params::options::CodegenOptions;

// The bit at which a file's names begin: behind form, lines and names.
const FIRST_NAME: usize = 2 * HEAD_BITS + NAME_BITS;

// No name has a register yet. What lies behind the n words stays: the promise is of the lent table.
pub fn clear_names(names: &mut [u16], n: usize)
    requires { n ≤ length names.old }
    ensures { names.new ≡ map regWord (replicate n none) ++ drop n names.old }
{
    names[..n].fill(MARK);
}

// Do the options protect a name with this flag?
#[tactic(auto, unfolding(rules::specs::Lowered::protects))]
fn protected(options: CodegenOptions, global: bool) -> bool
    ensures { result ≡ protects (optionsTold options) global }
{
    if global {
        options.protect_globals
    } else {
        options.protect_locals
    }
}

// A name that is not protected has no register to the outside.
pub fn protect_names(s: &[u8], names: &mut [u16], n: usize, options: CodegenOptions)
    requires { NamesReady s.now n (length names.old) }
    ensures { (x : List Name) (vs : List (Option ℕ)) (rest : List ℕ) → Placed s.now x → length x ≡ n → length vs ≡ n → names.old ≡ map regWord vs ++ rest → names.new ≡ nameWords (optionsTold options) x vs ++ rest }
{
    let mut q = FIRST_NAME;
    for word in &mut names[..n] {
        if !protected(options, is_global(s, q)) {
            *word = MARK;
        }
        q = after(s, q);
    }
}
