//! The laws.

ghost use Rattle.std.specs.Prelude.{◌≡◌, List, [], map};
ghost use Rattle.rdl_tree.specs.declared.item.Item as items;
ghost use Rattle.rdl_tree.specs.declared.token.Token as tokens;
ghost use Rattle.rdl_tree.specs.Tree.{DerivesItems};
ghost use Rattle.rdl_verdict_laws.specs.Plain.{plain_item, plain_token};

/// Tokens derive the items of one tree: two lists of items that are derived of the same tokens are one, apart from where
/// their parts, and the tokens' texts, lie in memory.
pub fn one_tree()
    ensures { (ts us : List tokens.Token) (is js : List items.Item) → map plain_token ts ≡ map plain_token us
        → DerivesItems ts [] is → DerivesItems us [] js → map plain_item is ≡ map plain_item js }
{}
