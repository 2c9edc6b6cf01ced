//! The forms of a document's values: which members an object has, what a list is of, what follows a word.

ghost use Rattle.std.specs.Prelude.{◌≡◌, map, option_map};
ghost use Rattle.ds_doc.specs.Forms as forms;
ghost use Rattle.ds_doc.specs.declared.form.Object.TheVariants as objects;
ghost use Rattle.ds_doc.specs.declared.form.Worded.TheVariants as words;

/// A form.
#[derive(Clone, Copy)]
pub(crate) enum Form {
    /// A number or a text.
    Single(Single),
    /// A list of values of one form.
    Listed(Listed),
    /// An object.
    Object(Object),
    /// A word, and what it asks for.
    Worded(Worded),
}

/// A form of numbers or texts.
#[derive(Clone, Copy)]
pub(crate) enum Single {
    /// Any number.
    Number,
    /// A number from the first to the second.
    Ranged(u64, u64),
    /// The name of a host.
    Name,
    /// 64 hex digits.
    Seed,
    /// 112 hex digits.
    Key,
    /// The types of a key.
    Types,
    /// An address.
    Address,
    /// A category.
    Category,
    /// A register.
    Register,
    /// A text of at most 16,384 bytes.
    Text,
    /// What a category protects.
    Kind,
    /// Bytes in hex.
    Hex,
    /// A delegation or an address certificate in hex.
    Cert,
}

/// A form of lists.
#[derive(Clone, Copy)]
pub(crate) enum Listed {
    Hosts,
    Procs,
    Boxes,
    Lanes,
    Inlets,
    Certs,
    Links,
    Events,
    Script,
    /// Hosts that keep a certificate.
    Keepers,
    /// The categories that a host knows.
    Map,
    /// Any other set of categories.
    Label,
}

/// A form of objects.
#[derive(Clone, Copy)]
pub(crate) enum Object {
    Document,
    Host,
    Proc,
    Box,
    Lane,
    Inlet,
    Cert,
}

/// A form of lists that begin with a word.
#[derive(Clone, Copy)]
pub(crate) enum Worded {
    Operation,
    Event,
}

/// How long a list may be.
#[derive(Clone, Copy)]
pub(crate) enum Most {
    /// As long as it likes.
    Any,
    /// So many items.
    Items(usize),
    /// So many different items.
    Different(usize),
}

const NUMBER: Form = Form::Single(Single::Number);

const WORD: Form = Form::Single(Single::Ranged(0, 4_294_967_295));

const ROOM: Form = Form::Single(Single::Ranged(1, 256));

const NAME: Form = Form::Single(Single::Name);

const TYPES: Form = Form::Single(Single::Types);

const ADDRESS: Form = Form::Single(Single::Address);

const CATEGORY: Form = Form::Single(Single::Category);

const REGISTER: Form = Form::Single(Single::Register);

const TEXT: Form = Form::Single(Single::Text);

const KIND: Form = Form::Single(Single::Kind);

const HEX: Form = Form::Single(Single::Hex);

const LABEL: Form = Form::Listed(Listed::Label);

const KEEPERS: Form = Form::Listed(Listed::Keepers);

impl Listed {
    /// The form of each item.
    pub(crate) fn item(self) -> Form
        ensures { result ≡ forms.item_form self }
    {
        match self {
            Listed::Hosts => Form::Object(Object::Host),
            Listed::Procs => Form::Object(Object::Proc),
            Listed::Boxes => Form::Object(Object::Box),
            Listed::Lanes => Form::Object(Object::Lane),
            Listed::Inlets => Form::Object(Object::Inlet),
            Listed::Certs => Form::Object(Object::Cert),
            Listed::Events => Form::Worded(Worded::Event),
            Listed::Script => Form::Worded(Worded::Operation),
            Listed::Links | Listed::Keepers => NAME,
            Listed::Map | Listed::Label => CATEGORY,
        }
    }

    /// How long the list may be.
    pub(crate) fn most(self) -> Most
        ensures { result ≡ forms.most self }
    {
        match self {
            Listed::Hosts => Most::Items(16),
            Listed::Procs => Most::Items(32),
            Listed::Boxes => Most::Items(64),
            Listed::Lanes => Most::Items(32),
            Listed::Inlets => Most::Items(64),
            Listed::Certs => Most::Items(256),
            Listed::Links => Most::Items(16),
            Listed::Events => Most::Items(20_000),
            Listed::Script => Most::Items(4_096),
            Listed::Keepers => Most::Any,
            Listed::Map => Most::Different(1_024),
            Listed::Label => Most::Different(64),
        }
    }
}

impl Object {
    /// The members that each such object has.
    #[tactic(auto, unfolding(crate::specs::Forms::needed))]
    pub(crate) fn needed(self) -> &'static [&'static str]
        ensures { map (λ n. n.now) result.now ≡ forms.needed self }
    {
        match self {
            Object::Document => &["version", "hosts"],
            Object::Host => &["name"],
            Object::Proc => &["script"],
            Object::Box => &["slot", "proc", "room"],
            Object::Lane => &["to", "room"],
            Object::Inlet => &["from", "lane"],
            Object::Cert => &[],
        }
    }

    /// The form of the member of this name; none where such an object has no such member.
    pub(crate) fn member(self, name: &str) -> Option<Form>
        ensures { result ≡ forms.member_form self name.now }
    {
        match self {
            Object::Document => document_member(name),
            Object::Host => host_member(name),
            Object::Proc => proc_member(name),
            Object::Box => box_member(name),
            Object::Lane => lane_member(name),
            Object::Inlet => inlet_member(name),
            Object::Cert => cert_member(name),
        }
    }
}

#[tactic(auto, unfolding(crate::specs::Forms::member_form))]
fn document_member(name: &str) -> Option<Form>
    ensures { result ≡ forms.member_form objects.Document name.now }
{
    if name == "version" {
        Some(Form::Single(Single::Ranged(1, 1)))
    } else if name == "hosts" {
        Some(Form::Listed(Listed::Hosts))
    } else if name == "moment" {
        Some(NUMBER)
    } else if name == "budget" {
        Some(Form::Single(Single::Ranged(1, 20_000)))
    } else if name == "certs" {
        Some(Form::Listed(Listed::Certs))
    } else if name == "links" {
        Some(Form::Listed(Listed::Links))
    } else if name == "events" {
        Some(Form::Listed(Listed::Events))
    } else {
        None
    }
}

#[tactic(auto, unfolding(crate::specs::Forms::member_form))]
fn host_member(name: &str) -> Option<Form>
    ensures { result ≡ forms.member_form objects.Host name.now }
{
    if name == "name" {
        Some(NAME)
    } else if name == "seed" {
        Some(Form::Single(Single::Seed))
    } else if name == "key" {
        Some(Form::Single(Single::Key))
    } else if name == "identity" {
        Some(TYPES)
    } else if name == "lanekey" {
        Some(TYPES)
    } else if name == "address" {
        Some(ADDRESS)
    } else if name == "map" {
        Some(Form::Listed(Listed::Map))
    } else if name == "procs" {
        Some(Form::Listed(Listed::Procs))
    } else if name == "boxes" {
        Some(Form::Listed(Listed::Boxes))
    } else if name == "lanes" {
        Some(Form::Listed(Listed::Lanes))
    } else if name == "inlets" {
        Some(Form::Listed(Listed::Inlets))
    } else {
        None
    }
}

#[tactic(auto, unfolding(crate::specs::Forms::member_form))]
fn proc_member(name: &str) -> Option<Form>
    ensures { result ≡ forms.member_form objects.Proc name.now }
{
    if name == "made" {
        Some(Form::Single(Single::Ranged(0, 2_147_483_647)))
    } else if name == "label" {
        Some(LABEL)
    } else if name == "own" {
        Some(LABEL)
    } else if name == "clear" {
        Some(LABEL)
    } else if name == "script" {
        Some(Form::Listed(Listed::Script))
    } else {
        None
    }
}

#[tactic(auto, unfolding(crate::specs::Forms::member_form))]
fn box_member(name: &str) -> Option<Form>
    ensures { result ≡ forms.member_form objects.Box name.now }
{
    if name == "slot" {
        Some(WORD)
    } else if name == "proc" {
        Some(NUMBER)
    } else if name == "label" {
        Some(LABEL)
    } else if name == "room" {
        Some(ROOM)
    } else {
        None
    }
}

#[tactic(auto, unfolding(crate::specs::Forms::member_form))]
fn lane_member(name: &str) -> Option<Form>
    ensures { result ≡ forms.member_form objects.Lane name.now }
{
    if name == "to" {
        Some(NAME)
    } else if name == "label" {
        Some(LABEL)
    } else if name == "room" {
        Some(ROOM)
    } else if name == "until" {
        Some(NUMBER)
    } else {
        None
    }
}

#[tactic(auto, unfolding(crate::specs::Forms::member_form))]
fn inlet_member(name: &str) -> Option<Form>
    ensures { result ≡ forms.member_form objects.Inlet name.now }
{
    if name == "from" {
        Some(NAME)
    } else if name == "lane" {
        Some(Form::Single(Single::Ranged(1, 32)))
    } else {
        None
    }
}

#[tactic(auto, unfolding(crate::specs::Forms::member_form))]
fn cert_member(name: &str) -> Option<Form>
    ensures { result ≡ forms.member_form objects.Cert name.now }
{
    if name == "by" {
        Some(NAME)
    } else if name == "cat" {
        Some(CATEGORY)
    } else if name == "to" {
        Some(NAME)
    } else if name == "from" {
        Some(NUMBER)
    } else if name == "until" {
        Some(NUMBER)
    } else if name == "at" {
        Some(KEEPERS)
    } else if name == "hex" {
        Some(Form::Single(Single::Cert))
    } else {
        None
    }
}

impl Worded {
    /// The forms of what stands behind the word; none where there is no such word.
    pub(crate) fn arguments(self, word: &str) -> Option<&'static [Form]>
        ensures { option_map (λ a. a.now) result ≡ forms.arguments self word.now }
    {
        match self {
            Worded::Operation => operation_arguments(word),
            Worded::Event => event_arguments(word),
        }
    }
}

#[tactic(auto, unfolding(crate::specs::Forms::arguments))]
fn operation_arguments(word: &str) -> Option<&'static [Form]>
    ensures { option_map (λ a. a.now) result ≡ forms.arguments words.Operation word.now }
{
    if word == "set" {
        Some(&[REGISTER, TEXT])
    } else if word == "join" {
        Some(&[REGISTER, REGISTER, REGISTER])
    } else if word == "ifeq" {
        Some(&[REGISTER, REGISTER, NUMBER])
    } else if word == "jump" {
        Some(&[NUMBER])
    } else if word == "print" {
        Some(&[REGISTER])
    } else if word == "send" {
        Some(&[NAME, WORD, REGISTER, LABEL, LABEL, LABEL])
    } else if word == "take" {
        Some(&[REGISTER, WORD])
    } else if word == "label" {
        Some(&[LABEL])
    } else if word == "newcat" {
        Some(&[KIND])
    } else if word == "delegate" {
        Some(&[REGISTER, CATEGORY, NAME, NUMBER, NUMBER])
    } else if word == "map" {
        Some(&[CATEGORY])
    } else if word == "import" {
        Some(&[REGISTER])
    } else {
        None
    }
}

#[tactic(auto, unfolding(crate::specs::Forms::arguments))]
fn event_arguments(word: &str) -> Option<&'static [Form]>
    ensures { option_map (λ a. a.now) result ≡ forms.arguments words.Event word.now }
{
    if word == "step" {
        Some(&[NAME, NUMBER])
    } else if word == "frame" {
        Some(&[NAME, NUMBER])
    } else if word == "arrive" {
        Some(&[NUMBER, NUMBER])
    } else if word == "accept" {
        Some(&[NUMBER])
    } else if word == "deliver" {
        Some(&[NUMBER])
    } else if word == "tick" {
        Some(&[NAME, NUMBER])
    } else if word == "inject" {
        Some(&[NUMBER, HEX])
    } else if word == "copy" {
        Some(&[NUMBER, NUMBER, NUMBER, NUMBER])
    } else {
        None
    }
}
