//! Changes, each made whole or not at all: whatever may fail comes before anything changes.
ghost use Rattle.house_rows.specs.declared.change.Change.TheVariants as change;
ghost use Rattle.house_rows.specs.Asks.{ChangeFits};
ghost use Rattle.house_rows.specs.Keeping.{AreSound};
ghost use Rattle.list_rows.specs.Makes.{Applies};

use crate::keep::ListKeep;
use crate::tables::set_table;
use cents::Cents;
use house_rows::{Change, KeepFault, NewItem, Rating, Text};
use proxy::{Bid, Standing};

impl ListKeep {
    /// Makes a change, as `apply` of `Keep` does, and says more of its faults: Damaged comes
    /// exactly where the new key is taken, whatever else is wanting, and Store never.
    pub fn change(&mut self, change: &Change<'_>) -> Result<(), KeepFault>
        requires fits { AreSound self.old → ChangeFits self.old change.now }
        ensures { Applies result self.old self.new change.now }
    {
        match *change {
            Change::Register { moment, name } => self.register(moment, name),
            Change::AddCategory { moment, name } => self.add_category(moment, name),
            Change::List { moment, ref item } => self.list(moment, item),
            Change::Bid {
                moment,
                item,
                placed,
                standing,
            } => self.place(moment, item, placed, standing),
            Change::Buy {
                moment,
                item,
                buyer,
                price,
            } => self.buy(moment, item, buyer, price),
            Change::Close { moment } => self.close(moment),
            Change::Settle { moment, item } => self.settle(moment, item),
            Change::Watch { member, item } => self.watch(member, item),
            Change::Unwatch { member, item } => self.unwatch(member, item),
            Change::Ask {
                item,
                asker,
                number,
                text,
            } => self.ask(item, asker, number, text),
            Change::Answer {
                moment,
                item,
                asker,
                number,
                text,
            } => self.answer(moment, item, asker, number, text),
            Change::Feedback {
                moment,
                item,
                from,
                to,
                rating,
                text,
            } => self.give(moment, item, from, to, rating, text),
            Change::SetBands { moment, bands } => self.set_bands(moment, bands),
        }
    }

    fn register(&mut self, moment: u64, name: &Text) -> Result<(), KeepFault>
        requires fits { AreSound self.old → ChangeFits self.old (change.Register moment name) }
        ensures { Applies result self.old self.new (change.Register moment name.entry) }
    {
        self.members.register(name)?;
        self.clock = moment;
        Ok(())
    }

    fn add_category(&mut self, moment: u64, name: &Text) -> Result<(), KeepFault>
        requires fits { AreSound self.old → ChangeFits self.old (change.AddCategory moment name) }
        ensures { Applies result self.old self.new (change.AddCategory moment name.entry) }
    {
        self.categories.add(name)?;
        self.clock = moment;
        Ok(())
    }

    fn list(&mut self, moment: u64, item: &NewItem<'_>) -> Result<(), KeepFault>
        requires fits { AreSound self.old → ChangeFits self.old (change.List moment item.now) }
        ensures { Applies result self.old self.new (change.List moment item.now) }
    {
        self.items.list(self.alloc, item)?;
        self.clock = moment;
        Ok(())
    }

    fn place(
        &mut self,
        moment: u64,
        item: u32,
        placed: Bid,
        standing: Standing,
    ) -> Result<(), KeepFault>
        requires fits { AreSound self.old
            → ChangeFits self.old (change.Bid moment item placed standing) }
        ensures { Applies result self.old self.new (change.Bid moment item placed standing) }
    {
        // The one step that can fail comes first.
        self.bids.place(self.alloc, item, placed)?;
        self.items.stand(item, standing);
        self.clock = moment;
        Ok(())
    }

    fn buy(&mut self, moment: u64, item: u32, buyer: u32, price: Cents) -> Result<(), KeepFault>
        requires fits { AreSound self.old
            → ChangeFits self.old (change.Buy moment item buyer price) }
        ensures { Applies result self.old self.new (change.Buy moment item buyer price) }
    {
        self.items.buy(self.alloc, item, buyer, price, moment)?;
        self.clock = moment;
        Ok(())
    }

    fn close(&mut self, moment: u64) -> Result<(), KeepFault>
        requires fits { AreSound self.old → ChangeFits self.old (change.Close moment) }
        ensures { Applies result self.old self.new (change.Close moment) }
    {
        self.items.close(moment);
        self.clock = moment;
        Ok(())
    }

    fn settle(&mut self, moment: u64, item: u32) -> Result<(), KeepFault>
        requires fits { AreSound self.old → ChangeFits self.old (change.Settle moment item) }
        ensures { Applies result self.old self.new (change.Settle moment item) }
    {
        self.items.settle(item);
        self.clock = moment;
        Ok(())
    }

    fn watch(&mut self, member: u32, item: u32) -> Result<(), KeepFault>
        requires fits { AreSound self.old → ChangeFits self.old (change.Watch member item) }
        ensures { Applies result self.old self.new (change.Watch member item) }
    {
        self.watches.watch(self.alloc, member, item)?;
        Ok(())
    }

    fn unwatch(&mut self, member: u32, item: u32) -> Result<(), KeepFault>
        requires fits { AreSound self.old → ChangeFits self.old (change.Unwatch member item) }
        ensures { Applies result self.old self.new (change.Unwatch member item) }
    {
        self.watches.unwatch(member, item);
        Ok(())
    }

    fn ask(&mut self, item: u32, asker: u32, number: u32, text: &Text) -> Result<(), KeepFault>
        requires fits { AreSound self.old
            → ChangeFits self.old (change.Ask item asker number text) }
        ensures { Applies result self.old self.new (change.Ask item asker number text.entry) }
    {
        self.questions.ask(self.alloc, item, asker, number, text)
    }

    fn answer(
        &mut self,
        moment: u64,
        item: u32,
        asker: u32,
        number: u32,
        text: &Text,
    ) -> Result<(), KeepFault>
        requires fits { AreSound self.old
            → ChangeFits self.old (change.Answer moment item asker number text) }
        ensures { Applies result self.old self.new
            (change.Answer moment item asker number text.entry) }
    {
        self.questions.answer(item, asker, number, text)?;
        self.clock = moment;
        Ok(())
    }

    fn give(
        &mut self,
        moment: u64,
        item: u32,
        from: u32,
        to: u32,
        rating: Rating,
        text: &Text,
    ) -> Result<(), KeepFault>
        requires fits { AreSound self.old
            → ChangeFits self.old (change.Feedback moment item from to rating text) }
        ensures { Applies result self.old self.new
            (change.Feedback moment item from to rating text.entry) }
    {
        self.feedback
            .give(self.alloc, item, from, to, rating, text)?;
        self.clock = moment;
        Ok(())
    }

    fn set_bands(&mut self, moment: u64, bands: &[(u64, u64)]) -> Result<(), KeepFault>
        requires fits { AreSound self.old → ChangeFits self.old (change.SetBands moment bands) }
        ensures { Applies result self.old self.new (change.SetBands moment bands.entry) }
    {
        let first = self.items.rows().len() as u32 + 1;
        set_table(self.alloc, &mut self.editions, first, bands)?;
        self.clock = moment;
        Ok(())
    }
}
