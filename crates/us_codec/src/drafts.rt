ghost use Rattle.std.specs.Prelude.{◌≡◌, List, [], ◌∷◌, ◌++◌, ◌-◌, length, slice_get, OnOk, IfOk};
ghost use Rattle.std.specs.List.{AllByRecursion};
ghost use Rattle.us_codec.specs.Elements.{MapElement, IsMapElement};
ghost use Rattle.us_codec.specs.Faults.{end_of, rises_to_end, ends_in_pendings, starts_at_zero, list_fault};
ghost use Rattle.us_codec.specs.Drafts.{is_above};

use crate::elements::Element;
use crate::faults::MapFault;
use crate::heads::Head;
use std::alloc::{AllocError, Global};
use std::marker::Model;

/// Elements as they come, each judged when it comes: so a body is read, or built, in one pass.
#[derive(Debug, Drop)]
pub struct Draft {
    elements: Vec<Element>,
    /// The first element of IUC 7, which ends the list.
    end: Option<Element>,
    /// Whether offsets have risen strictly, up to that element.
    rising: bool,
    /// Whether all behind it may stand there.
    pending: bool,
}

impl Model for Draft {
    ghost Value = { List MapElement };

    ghost view = { λ d. d.elements.items };

    ghost invariant = { λ d.
        (d.end ≡ end_of d.elements.items) ×
        (d.rising ≡ rises_to_end d.elements.items) ×
        (d.pending ≡ ends_in_pendings d.elements.items) ×
        AllByRecursion IsMapElement d.elements.items };
}

impl Draft {
    /// No elements, and room for `count`.
    #[tactic(auto, using(crate::proofs::DraftLemmas::empty))]
    pub fn with_room(alloc: Global, count: usize) -> Result<Draft, AllocError>
        ensures { IfOk result (λ draft. draft ≡ []) }
    {
        Ok(Draft {
            elements: Vec::with_capacity(alloc, count)?,
            end: None,
            rising: true,
            pending: true,
        })
    }

    /// Takes the next element.
    #[tactic(auto, using(crate::proofs::DraftLemmas::more))]
    pub fn push(&mut self, element: Element) -> Result<(), AllocError>
        ensures { OnOk result (self.new ≡ self.old ++ element ∷ []) }
    {
        let rises = self.rises_to(element);
        self.elements.push(element)?;
        match self.end {
            Some(end) => {
                self.pending &= element.is_pending(end.offset());
            }
            None => {
                self.rising &= rises;
                if element.ends_list() {
                    self.end = Some(element);
                }
            }
        }
        Ok(())
    }

    /// Takes these elements, one behind another.
    pub fn extend(&mut self, elements: &[Element]) -> Result<(), AllocError>
        ensures { OnOk result (self.new ≡ self.old ++ elements.now) }
    {
        for element in elements {
            self.push(*element)?;
        }
        Ok(())
    }

    /// The element that ends the list, where there is one: the Null, or one of IUC 7 with another SID.
    pub fn end(&self) -> Option<Element>
        ensures { result ≡ end_of self.now }
    {
        self.end
    }

    /// The first fault of a body of this head and these elements, `Ok` where it has none.
    #[tactic(auto, unfolding(crate::specs::Faults::list_fault, crate::specs::Faults::parts_fault))]
    pub fn fault(&self, head: &Head) -> Result<(), MapFault>
        ensures { result ≡ list_fault head.now self.now }
    {
        if !self.end.is_some_and(|end| end.sid() == 0) {
            return Err(MapFault::NoNull);
        }
        if !self.rising {
            return Err(MapFault::Order);
        }
        if !self.pending {
            return Err(MapFault::AfterNull);
        }
        if !head.has_lawful_backoffs() {
            return Err(MapFault::Backoff);
        }
        if !self.starts_at_zero() {
            return Err(MapFault::FirstOffset);
        }
        Ok(())
    }

    /// The elements.
    pub fn into_elements(self) -> Vec<Element>
        ensures items { result.items ≡ self }
        ensures fields { AllByRecursion IsMapElement self }
    {
        self.elements
    }

    /// Whether the offset of `element` is above that of the last one so far, or there is none.
    #[tactic(auto, unfolding(crate::specs::Drafts::is_above))]
    fn rises_to(&self, element: Element) -> bool
        ensures { result ≡ is_above (slice_get self.now (length self.now - 1)) element }
    {
        match self.elements.last() {
            Some(last) => last.offset() < element.offset(),
            None => true,
        }
    }

    /// Whether the first offset is 0, or there is none.
    #[tactic(auto, unfolding(crate::specs::Faults::starts_at_zero))]
    fn starts_at_zero(&self) -> bool
        ensures { result ≡ starts_at_zero self.now }
    {
        match self.elements.first() {
            Some(first) => first.offset() == 0,
            None => true,
        }
    }
}
