// Trees of forks: which collection may follow which, and the roots and groups of all.
ghost use Rattle.std.specs.Prelude.{◌<◌};
ghost use Rattle.rx_tree.specs.Table.{most_collections};

use crate::compared::compare;
use rx_tree::{Tree, TreeFault};
use std::alloc::{AllocError, Global};
use std::test::Fail;

// Forks with their masters, in the order in which they are added; the roots of the collections from
// 0 to 5; the group of 0; and the forks below 0, up and down. A + stands at a fork that is added,
// a * at one that was a fork already, and an o at one that would close a ring.
const TREES: &str = r#"
| 0 1 2 3 4 5 | 0 | |
1+0 | 0 0 2 3 4 5 | 0 1 | 1 | 1
1+0 2+1 3+2 | 0 0 0 0 4 5 | 0 1 2 3 | 3 2 1 | 1 2 3
3+2 2+1 1+0 | 0 0 0 0 4 5 | 0 1 2 3 | 3 2 1 | 1 2 3
0+5 1+0 | 5 5 2 3 4 5 | 0 1 5 | 1 | 1
1+0 2+0 4+3 5+4 | 0 0 0 3 3 3 | 0 1 2 | 1 2 | 1 2
1+0 4+3 5+4 3+1 | 0 0 2 0 0 0 | 0 1 3 4 5 | 5 4 3 1 | 1 3 4 5
3+0 4+3 1+0 2+1 | 0 0 0 0 0 5 | 0 1 2 3 4 | 2 1 4 3 | 1 2 3 4
5+0 4+0 3+5 2+4 1+5 | 0 0 0 0 0 0 | 0 1 2 3 4 5 | 2 4 1 3 5 | 4 2 5 1 3
1+0 1*0 1*2 1*1 | 0 0 2 3 4 5 | 0 1 | 1 | 1
0o0 | 0 1 2 3 4 5 | 0 | |
1+0 0o1 0o0 | 0 0 2 3 4 5 | 0 1 | 1 | 1
1+0 2+1 0o2 0o1 2*0 | 0 0 0 3 4 5 | 0 1 2 | 2 1 | 1 2
1+0 2+1 0+3 3o2 3o0 3+4 | 4 4 4 4 4 5 | 0 1 2 3 4 | 2 1 | 1 2
"#;

#[test]
fn a_fork_is_added_unless_it_is_one_or_closes_a_ring(rt: HostRuntime) -> Result<(), Fail> {
    let mut trees = 0u64;
    for line in TREES.lines() {
        if let Some((forks, due)) = line.split_once('|') {
            let tree = grown(rt.alloc(), forks)?;
            compare(line, due, shown(rt.alloc(), &tree)?.as_str())?;
            trees = trees.saturating_add(1);
        }
    }
    assert_eq!(&rt; trees, 14);
    Ok(())
}

fn grown(alloc: Global, forks: &str) -> Result<Tree, Fail> {
    let mut tree = Tree::new(alloc);
    for fork in forks.split_whitespace() {
        add(&mut tree, fork)?;
    }
    Ok(tree)
}

// Adds a fork, and has it end as the sign between the two numbers says.
fn add(tree: &mut Tree, fork: &str) -> Result<(), Fail> {
    let [number, sign, master] = fork.as_bytes() else {
        return Err(Fail::new(fork));
    };
    match (*sign, tree.add(collection(*number), collection(*master))) {
        (b'+', Ok(())) => Ok(()),
        (b'*', Err(TreeFault::Twice)) => Ok(()),
        (b'o', Err(TreeFault::Cycle)) => Ok(()),
        _ => Err(Fail::new(fork)),
    }
}

// The number that a digit stands for.
fn collection(digit: u8) -> u32
    ensures { result < most_collections }
{
    digit.wrapping_sub(b'0') as u32 % 64
}

// The roots, the group of 0, and the forks below it.
fn shown(alloc: Global, tree: &Tree) -> Result<String, AllocError> {
    let mut words = String::new(alloc);
    for number in 0..6 {
        put(alloc, &mut words, tree.root(number))?;
    }
    words.push_str(" |")?;
    for number in 0..6 {
        if tree.are_joined(number, 0) {
            put(alloc, &mut words, number)?;
        }
    }
    put_all(alloc, &mut words, tree.up(alloc, 0)?.as_slice())?;
    put_all(alloc, &mut words, tree.down(alloc, 0)?.as_slice())?;
    Ok(words)
}

fn put(alloc: Global, words: &mut String, number: u32) -> Result<(), AllocError> {
    words.push_str(format!(in alloc; " {number}")?.as_str())
}

fn put_all(alloc: Global, words: &mut String, numbers: &[u32]) -> Result<(), AllocError> {
    words.push_str(" |")?;
    for number in numbers {
        put(alloc, words, *number)?;
    }
    Ok(())
}
