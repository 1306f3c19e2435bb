ghost use Rattle.std.specs.Prelude.{◌≡◌, ◌≢◌, ◌<◌, ◌≤◌, ◌+◌, ◌-◌, ◌++◌, ℕ, List, length, map, reverse, IfOk, IfErr, OnOk, OnErr};
ghost use Rattle.name_map.specs.NameEntries.{size_of};
ghost use Rattle.dts_tree.specs.Content.{child_of, elsewhere, with_labels};
ghost use Rattle.dts_tree.specs.Inside.Reader.{Counted, Failed, IsIn, Kept, Ready, Took, Went, label_in, name_in, pending, view_of, waiting_size};
ghost use Rattle.dts_tree.specs.Inside.View as view;

use crate::fault::TreeFault;
use crate::piece::{Piece, Place};
use crate::reading::bytes::{bytes_of, is_bytes, may_name_property, slice_of, unescaped};
use crate::reading::spot::Spot;
use crate::reading::symbol::{Symbol, fault_of, inner_of, symbol_of};
use crate::store::{Opened, Span, Store};
use dts_lex::{Token, is_label};
use name_map::NameMap;
use std::alloc::{AllocError, Global};

/// What was read of a text, token by token.
pub(crate) struct Reader {
    alloc: Global,
    spot: Spot,
    /// The nodes of the open bodies, the innermost last.
    bodies: Vec<u32>,
    /// The labels of the node that comes next.
    waiting: Vec<Token>,
    /// Where the pieces of the value begin that is read.
    from: usize,
    pub(crate) pieces: Vec<Piece<Place>>,
    pub(crate) store: Store,
}

/// How many levels a node may be below the root.
const DEEPEST: u32 = 32;

impl Drop for Reader {
    /// Ends all parts, so that an owner's code has one call for it.
    fn drop(self) {
        let Reader {
            alloc: _,
            spot: _,
            bodies: _,
            waiting: _,
            from: _,
            pieces: _,
            store: _,
        } = self;
    }
}

impl Reader {
    /// Nothing was read. Takes no memory.
    pub(crate) fn new(alloc: Global) -> Reader
        ensures view { (text : List ℕ) → view_of text result ≡ view.view_start }
        ensures kept { Kept result }
        ensures counted { Counted 0 result }
    {
        Reader {
            alloc,
            spot: Spot::Start,
            bodies: Vec::new(alloc),
            waiting: Vec::new(alloc),
            from: 0,
            pieces: Vec::new(alloc),
            store: Store::new(alloc),
        }
    }

    /// The node of the innermost open body.
    fn here(&self) -> u32
        requires { Kept self.now }
        ensures here { result ≡ view.here (reverse self.now.bodies.items) }
        ensures inside { result ≤ length self.now.store.children }
    {
        match self.bodies.last() {
            Some(node) => *node,
            None => 0,
        }
    }

    fn start(
        &mut self,
        text: &[u8],
        token: &Token,
        inner: &[u8],
        symbol: Symbol,
    ) -> Result<(), TreeFault>
        requires spot { self.old.spot ≡ Spot.Start }
        requires ready { Ready text.now inner.now token.now symbol self.old }
        ensures ok { OnOk result (Took text.now inner.now token.now symbol self.old self.new view.take_start) }
        ensures fault { IfErr result (Failed text.now inner.now token.now symbol self.old view.take_start) }
    {
        match symbol {
            Symbol::Version => {
                self.spot = Spot::Versioned;
                Ok(())
            }
            _ => Err(fault_of(text, token)),
        }
    }

    fn semicolon(
        &mut self,
        text: &[u8],
        token: &Token,
        inner: &[u8],
        symbol: Symbol,
    ) -> Result<(), TreeFault>
        requires spot { pending self.old.spot ≡ 1 }
        requires ready { Ready text.now inner.now token.now symbol self.old }
        ensures ok { OnOk result (Took text.now inner.now token.now symbol self.old self.new view.take_semicolon) }
        ensures fault { IfErr result (Failed text.now inner.now token.now symbol self.old view.take_semicolon) }
    {
        match symbol {
            Symbol::Semicolon => {
                self.spot = Spot::Inside;
                Ok(())
            }
            _ => Err(fault_of(text, token)),
        }
    }

    fn brace(
        &mut self,
        text: &[u8],
        token: &Token,
        inner: &[u8],
        symbol: Symbol,
    ) -> Result<(), TreeFault>
        requires spot { pending self.old.spot ≡ 1 }
        requires ready { Ready text.now inner.now token.now symbol self.old }
        ensures ok { OnOk result (Took text.now inner.now token.now symbol self.old self.new view.take_open) }
        ensures fault { IfErr result (Failed text.now inner.now token.now symbol self.old view.take_open) }
    {
        match symbol {
            Symbol::Open => {
                self.spot = Spot::Inside;
                Ok(())
            }
            _ => Err(fault_of(text, token)),
        }
    }

    fn item(
        &mut self,
        text: &[u8],
        token: &Token,
        inner: &[u8],
        symbol: Symbol,
    ) -> Result<(), TreeFault>
        requires spot { pending self.old.spot ≡ 1 }
        requires ready { Ready text.now inner.now token.now symbol self.old }
        ensures ok { OnOk result (Took text.now inner.now token.now symbol self.old self.new view.take_item) }
        ensures fault { IfErr result (Failed text.now inner.now token.now symbol self.old view.take_item) }
    {
        match symbol {
            Symbol::Slash => {
                self.spot = Spot::Slashed(token.start);
                Ok(())
            }
            Symbol::Ref => {
                match self.store.labels.get(0, inner) {
                    Some(node) => {
                        self.bodies.push(*node)?;
                        self.spot = Spot::Added;
                        Ok(())
                    }
                    None => Err(TreeFault::NoLabel(token.start)),
                }
            }
            _ => Err(fault_of(text, token)),
        }
    }

    fn member(
        &mut self,
        text: &[u8],
        token: &Token,
        inner: &[u8],
        symbol: Symbol,
    ) -> Result<(), TreeFault>
        requires spot { pending self.old.spot ≡ 1 }
        requires ready { Ready text.now inner.now token.now symbol self.old }
        ensures ok { OnOk result (Took text.now inner.now token.now symbol self.old self.new view.take_member) }
        ensures fault { IfErr result (Failed text.now inner.now token.now symbol self.old view.take_member) }
    {
        match symbol {
            Symbol::Close => {
                self.bodies.pop();
                self.spot = Spot::Closed;
                Ok(())
            }
            Symbol::Word => {
                self.spot = Spot::Worded(*token);
                Ok(())
            }
            _ => Err(fault_of(text, token)),
        }
    }

    fn inside(
        &mut self,
        text: &[u8],
        token: &Token,
        inner: &[u8],
        symbol: Symbol,
    ) -> Result<(), TreeFault>
        requires spot { self.old.spot ≡ Spot.Inside }
        requires ready { Ready text.now inner.now token.now symbol self.old }
        ensures ok { OnOk result (Took text.now inner.now token.now symbol self.old self.new (λ v word at wrong. view.take_inside v word at wrong v.bodies)) }
        ensures fault { IfErr result (Failed text.now inner.now token.now symbol self.old (λ v word at wrong. view.take_inside v word at wrong v.bodies)) }
    {
        if self.bodies.is_empty() {
            self.item(text, token, inner, symbol)
        } else {
            self.member(text, token, inner, symbol)
        }
    }

    fn slashed(
        &mut self,
        text: &[u8],
        token: &Token,
        inner: &[u8],
        symbol: Symbol,
        slash: u32,
    ) -> Result<(), TreeFault>
        requires spot { pending self.old.spot ≡ 1 }
        requires ready { Ready text.now inner.now token.now symbol self.old }
        ensures ok { OnOk result (Took text.now inner.now token.now symbol self.old self.new (λ v word at wrong. view.take_slashed v word at wrong slash)) }
        ensures fault { IfErr result (Failed text.now inner.now token.now symbol self.old (λ v word at wrong. view.take_slashed v word at wrong slash)) }
    {
        match symbol {
            Symbol::Open => {
                self.store.root_at = self.store.root_at.or(Some(slash));
                self.bodies.push(0)?;
                self.spot = Spot::Inside;
                Ok(())
            }
            _ => Err(fault_of(text, token)),
        }
    }

    fn named(
        &mut self,
        text: &[u8],
        token: &Token,
        inner: &[u8],
        symbol: Symbol,
        name: Token,
    ) -> Result<(), TreeFault>
        requires spot { pending self.old.spot ≡ name.end - name.start + 1 }
        requires ready { Ready text.now inner.now token.now symbol self.old }
        ensures ok { OnOk result (Took text.now inner.now token.now symbol self.old self.new (λ v word at wrong. view.take_named v word at wrong (name_in text.now name) name.start)) }
        ensures fault { IfErr result (Failed text.now inner.now token.now symbol self.old (λ v word at wrong. view.take_named v word at wrong (name_in text.now name) name.start)) }
    {
        match symbol {
            Symbol::Colon => {
                if !is_label(slice_of(text, name.start, name.end)) {
                    return Err(fault_of(text, token));
                }
                self.waiting.push(name)?;
                self.spot = Spot::Behind;
                Ok(())
            }
            Symbol::Open => {
                self.open_child(text, &name)?;
                Ok(())
            }
            _ => Err(fault_of(text, token)),
        }
    }

    fn worded(
        &mut self,
        text: &[u8],
        token: &Token,
        inner: &[u8],
        symbol: Symbol,
        name: Token,
    ) -> Result<(), TreeFault>
        requires spot { pending self.old.spot ≡ name.end - name.start + 1 }
        requires ready { Ready text.now inner.now token.now symbol self.old }
        ensures ok { OnOk result (Took text.now inner.now token.now symbol self.old self.new (λ v word at wrong. view.take_worded v word at wrong (name_in text.now name) name.start)) }
        ensures fault { IfErr result (Failed text.now inner.now token.now symbol self.old (λ v word at wrong. view.take_worded v word at wrong (name_in text.now name) name.start)) }
    {
        match symbol {
            Symbol::Semicolon => {
                if !may_name_property(slice_of(text, name.start, name.end)) {
                    return Err(fault_of(text, token));
                }
                self.set(text, &name)?;
                Ok(())
            }
            Symbol::Equals => {
                if !may_name_property(slice_of(text, name.start, name.end)) {
                    return Err(fault_of(text, token));
                }
                self.spot = Spot::Valued(name);
                Ok(())
            }
            _ => self.named(text, token, inner, symbol, name),
        }
    }

    fn behind(
        &mut self,
        text: &[u8],
        token: &Token,
        inner: &[u8],
        symbol: Symbol,
    ) -> Result<(), TreeFault>
        requires spot { pending self.old.spot ≡ 1 }
        requires ready { Ready text.now inner.now token.now symbol self.old }
        ensures ok { OnOk result (Took text.now inner.now token.now symbol self.old self.new view.take_behind) }
        ensures fault { IfErr result (Failed text.now inner.now token.now symbol self.old view.take_behind) }
    {
        match symbol {
            Symbol::Word => {
                self.spot = Spot::Named(*token);
                Ok(())
            }
            _ => Err(fault_of(text, token)),
        }
    }

    fn valued(
        &mut self,
        text: &[u8],
        token: &Token,
        inner: &[u8],
        symbol: Symbol,
        name: Token,
    ) -> Result<(), TreeFault>
        requires spot { pending self.old.spot ≡ name.end - name.start + 1 }
        requires ready { Ready text.now inner.now token.now symbol self.old }
        ensures ok { OnOk result (Took text.now inner.now token.now symbol self.old self.new (λ v word at wrong. view.take_valued v word at wrong (name_in text.now name))) }
        ensures fault { IfErr result (Failed text.now inner.now token.now symbol self.old (λ v word at wrong. view.take_valued v word at wrong (name_in text.now name))) }
    {
        match symbol {
            Symbol::Less => {
                self.pieces.push(Piece::Cells)?;
                self.spot = Spot::InCells(name);
                Ok(())
            }
            Symbol::Left => {
                self.pieces.push(Piece::Bytes)?;
                self.spot = Spot::InBytes(name);
                Ok(())
            }
            Symbol::Text => {
                self.pieces.push(Piece::Text)?;
                let bytes = unescaped(self.alloc, inner)?;
                push_bytes(&mut self.pieces, bytes.as_slice())?;
                self.spot = Spot::Parted(name);
                Ok(())
            }
            Symbol::Ref => {
                self.pieces.push(Piece::Whole(place_of(token)))?;
                self.spot = Spot::Parted(name);
                Ok(())
            }
            _ => Err(fault_of(text, token)),
        }
    }

    fn cells(
        &mut self,
        text: &[u8],
        token: &Token,
        inner: &[u8],
        symbol: Symbol,
        name: Token,
    ) -> Result<(), TreeFault>
        requires spot { pending self.old.spot ≡ name.end - name.start + 1 }
        requires ready { Ready text.now inner.now token.now symbol self.old }
        ensures ok { OnOk result (Took text.now inner.now token.now symbol self.old self.new (λ v word at wrong. view.take_cells v word at wrong (name_in text.now name))) }
        ensures fault { IfErr result (Failed text.now inner.now token.now symbol self.old (λ v word at wrong. view.take_cells v word at wrong (name_in text.now name))) }
    {
        match symbol {
            Symbol::Number(n) => {
                self.pieces.push(Piece::Number(n))?;
                self.spot = Spot::InCells(name);
                Ok(())
            }
            Symbol::Ref => {
                self.pieces.push(Piece::Node(place_of(token)))?;
                self.spot = Spot::InCells(name);
                Ok(())
            }
            Symbol::Greater => {
                self.spot = Spot::Parted(name);
                Ok(())
            }
            _ => Err(fault_of(text, token)),
        }
    }

    fn bytes(
        &mut self,
        text: &[u8],
        token: &Token,
        inner: &[u8],
        symbol: Symbol,
        name: Token,
    ) -> Result<(), TreeFault>
        requires spot { pending self.old.spot ≡ name.end - name.start + 1 }
        requires ready { Ready text.now inner.now token.now symbol self.old }
        ensures ok { OnOk result (Took text.now inner.now token.now symbol self.old self.new (λ v word at wrong. view.take_bytes v word at wrong (name_in text.now name))) }
        ensures fault { IfErr result (Failed text.now inner.now token.now symbol self.old (λ v word at wrong. view.take_bytes v word at wrong (name_in text.now name))) }
    {
        match symbol {
            Symbol::Word => {
                if !is_bytes(inner) {
                    return Err(fault_of(text, token));
                }
                let bytes = bytes_of(self.alloc, inner)?;
                push_bytes(&mut self.pieces, bytes.as_slice())?;
                self.spot = Spot::InBytes(name);
                Ok(())
            }
            Symbol::Right => {
                self.spot = Spot::Parted(name);
                Ok(())
            }
            _ => Err(fault_of(text, token)),
        }
    }

    fn parted(
        &mut self,
        text: &[u8],
        token: &Token,
        inner: &[u8],
        symbol: Symbol,
        name: Token,
    ) -> Result<(), TreeFault>
        requires spot { pending self.old.spot ≡ name.end - name.start + 1 }
        requires ready { Ready text.now inner.now token.now symbol self.old }
        ensures ok { OnOk result (Took text.now inner.now token.now symbol self.old self.new (λ v word at wrong. view.take_parted v word at wrong (name_in text.now name))) }
        ensures fault { IfErr result (Failed text.now inner.now token.now symbol self.old (λ v word at wrong. view.take_parted v word at wrong (name_in text.now name))) }
    {
        match symbol {
            Symbol::Semicolon => {
                self.set(text, &name)?;
                Ok(())
            }
            Symbol::Comma => {
                self.spot = Spot::Valued(name);
                Ok(())
            }
            _ => Err(fault_of(text, token)),
        }
    }

    /// Takes the next token.
    pub(crate) fn take(&mut self, text: &[u8], token: &Token) -> Result<(), TreeFault>
        requires kept { Kept self.old }
        requires short { length text.now ≤ 4294967295 }
        requires token { IsIn text.now token.now }
        requires counted { Counted token.now.start self.old }
        ensures ok { OnOk result (Went (view.take_token text.now (view_of text.now self.old) token.now) text.now token.now.end self.new) }
        ensures fault { IfErr result (λ fault. fault ≢ TreeFault.Memory → view.take_token text.now (view_of text.now self.old) token.now ≡ Err fault) }
    {
        let symbol = symbol_of(text, token);
        let inner = inner_of(text, token);
        match self.spot {
            Spot::Start => self.start(text, token, inner, symbol),
            Spot::Versioned => self.semicolon(text, token, inner, symbol),
            Spot::Inside => self.inside(text, token, inner, symbol),
            Spot::Slashed(slash) => self.slashed(text, token, inner, symbol, slash),
            Spot::Added => self.brace(text, token, inner, symbol),
            Spot::Closed => self.semicolon(text, token, inner, symbol),
            Spot::Worded(name) => self.worded(text, token, inner, symbol, name),
            Spot::Behind => self.behind(text, token, inner, symbol),
            Spot::Named(name) => self.named(text, token, inner, symbol, name),
            Spot::Valued(name) => self.valued(text, token, inner, symbol, name),
            Spot::InCells(name) => self.cells(text, token, inner, symbol, name),
            Spot::InBytes(name) => self.bytes(text, token, inner, symbol, name),
            Spot::Parted(name) => self.parted(text, token, inner, symbol, name),
        }
    }

    /// Whether the text may end here.
    pub(crate) fn may_end(&self) -> bool
        ensures { (text : List ℕ) → result ≡ view.may_end (view_of text self.now) }
    {
        matches!(self.spot, Spot::Inside) && self.bodies.is_empty()
    }

    /// What was set, and the pieces of the values.
    pub(crate) fn into_set(self) -> (Store, Vec<Piece<Place>>)
        ensures store { result.0 ≡ self.store }
        ensures pieces { result.1 ≡ self.pieces }
    {
        let Reader {
            alloc: _,
            spot: _,
            bodies: _,
            waiting: _,
            from: _,
            pieces,
            store,
        } = self;
        (store, pieces)
    }

    /// Sets a property of the innermost node to the value that was read.
    fn set(&mut self, text: &[u8], name: &Token) -> Result<(), AllocError>
        requires spot { pending self.old.spot ≡ name.now.end - name.now.start + 1 }
        requires kept { Kept self.old }
        requires room { size_of self.old.store.properties + (name.now.end - name.now.start) < 4294967295 }
        ensures view { OnOk result (view.view_set (view_of text.now self.old) (name_in text.now name.now) ≡ view_of text.now self.new) }
        ensures kept { OnOk result (Kept self.new) }
        ensures counted { OnOk result ((n : ℕ) → Counted n self.old → Counted (n + 1) self.new) }
    {
        let node = self.here();
        let to = self.pieces.len();
        let span = Span {
            from: self.from,
            to,
        };
        self.store
            .properties
            .insert(node, slice_of(text, name.start, name.end), span)?;
        self.from = to;
        self.spot = Spot::Inside;
        Ok(())
    }

    /// The place of the first waiting label that stands at another node than this child.
    fn elsewhere(&self, text: &[u8], parent: u32, name: &[u8]) -> Option<u32>
        requires { length self.now.store.children < 4294967295 }
        ensures { result ≡ elsewhere self.now.store.labels (child_of self.now.store.children parent name.now) (map (label_in text.now) self.now.waiting.items) }
    {
        if self.waiting.is_empty() {
            return None;
        }
        let node = self.store.child(parent, name);
        elsewhere_in(&self.store.labels, text, self.waiting.as_slice(), node)
    }

    /// Opens the body of a child of the innermost node, at which the waiting labels then stand.
    fn open_child(&mut self, text: &[u8], name: &Token) -> Result<(), TreeFault>
        requires spot { pending self.old.spot ≡ name.now.end - name.now.start + 1 }
        requires kept { Kept self.old }
        requires room { size_of self.old.store.children + (name.now.end - name.now.start) < 4294967295 }
        requires labels { size_of self.old.store.labels + waiting_size self.old.waiting.items < 4294967296 }
        ensures view { OnOk result (view.open_child (view_of text.now self.old) (name_in text.now name.now) name.now.start ≡ Ok (view_of text.now self.new)) }
        ensures kept { OnOk result (Kept self.new) }
        ensures counted { OnOk result ((n : ℕ) → Counted n self.old → Counted (n + 1) self.new) }
        ensures fault { IfErr result (λ fault. fault ≢ TreeFault.Memory → view.open_child (view_of text.now self.old) (name_in text.now name.now) name.now.start ≡ Err fault) }
    {
        let parent = self.here();
        let word = slice_of(text, name.start, name.end);
        if let Some(place) = self.elsewhere(text, parent, word) {
            return Err(TreeFault::TwoLabels(place));
        }
        let depth = self.store.depth(parent);
        if depth >= DEEPEST {
            return Err(TreeFault::TooDeep(name.start));
        }
        let opened = Opened {
            at: name.start,
            depth: depth + 1,
        };
        let place = self.store.children.keep(parent, word, opened)?;
        let node = place + 1;
        put_labels(&mut self.store.labels, text, self.waiting.as_slice(), node)?;
        self.waiting.clear();
        self.bodies.push(node)?;
        self.spot = Spot::Inside;
        Ok(())
    }
}

/// The place of a reference.
fn place_of(token: &Token) -> Place
    ensures at { result.at ≡ token.now.start }
    ensures end { result.end ≡ token.now.end }
{
    Place {
        at: token.start,
        end: token.end,
    }
}

fn push_bytes(pieces: &mut Vec<Piece<Place>>, bytes: &[u8]) -> Result<(), AllocError>
    ensures { OnOk result (pieces.new.items ≡ pieces.old.items ++ map Piece.Byte bytes.now) }
{
    for b in bytes {
        pieces.push(Piece::Byte(*b))?;
    }
    Ok(())
}

/// The place of the first of these labels that stands at another node than this.
fn elsewhere_in(
    labels: &NameMap<u32>,
    text: &[u8],
    waiting: &[Token],
    node: Option<u32>,
) -> Option<u32>
    ensures { result ≡ elsewhere labels.now node (map (label_in text.now) waiting.now) }
{
    for token in waiting {
        if let Some(other) = labels.get(0, slice_of(text, token.start, token.end)) {
            if Some(*other) != node {
                return Some(token.start);
            }
        }
    }
    None
}

/// These labels stand at the node from now on.
fn put_labels(
    labels: &mut NameMap<u32>,
    text: &[u8],
    waiting: &[Token],
    node: u32,
) -> Result<(), AllocError>
    requires room { size_of labels.old + waiting_size waiting.now < 4294967296 }
    ensures { OnOk result (labels.new ≡ with_labels labels.old node (map (label_in text.now) waiting.now)) }
{
    for token in waiting {
        labels.keep(0, slice_of(text, token.start, token.end), node)?;
    }
    Ok(())
}
