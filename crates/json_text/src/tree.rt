// Values of JSON.
ghost use Rattle.std.specs.Prelude.{◌≡◌};
ghost use Rattle.std.specs.Option.{option_map};
ghost use Rattle.json_text.specs.Tree.{member_of, last_of, members_of};
ghost use Rattle.json_text.specs.Values.{json_of, pairs_of};

use agg_base::Text;

/// A value of JSON.
#[derive(Drop)]
pub enum Tree {
    /// The word `null`.
    Null,
    /// The words `true` and `false`.
    Truth(bool),
    /// A number, with its characters as they stand.
    Number(Text),
    /// A text, without its quotes and escapes.
    Str(Text),
    /// A list of values, in order.
    List(Vec<Tree>),
    /// Names and their values, in order. Where a name comes again, its last value counts.
    Members(Vec<(Text, Tree)>),
}

impl Tree {
    /// The value of the last member of that name. `None` comes where the value is no `Members` or has no such name. It takes no memory.
    pub fn member(&self, name: &str) -> Option<&Tree>
        ensures { option_map (λ tree. json_of tree.now) result ≡ member_of (json_of self.now) name.now }
    {
        match self {
            Tree::Members(members) => last_of(members, name),
            _ => None,
        }
    }
}

// The value of the last member of that name.
fn last_of<'a>(members: &'a Vec<(Text, Tree)>, name: &str) -> Option<&'a Tree>
    ensures { option_map (λ tree. json_of tree.now) result ≡ last_of (members_of (pairs_of members.now.items)) name.now }
{
    let mut left = members.len();
    while left > 0 {
        left -= 1;
        let member = &members[left];
        if member.0.as_str() == name {
            return Some(&member.1);
        }
    }
    None
}
