//! Command lines, each with what it asks for or its first bad word. `''` stands for an empty word.

// The words of `frames` and their options.
pub(crate) const FRAMES: &str = "\
=> usage 0 Command
'' => usage 0 Command
frame => usage 0 Command
Frames => usage 0 Command
frames= => usage 0 Command
framess line => usage 0 Command
--block 1 => usage 0 Command
--in=a frames line => usage 0 Command
--help => usage 0 Command
- => usage 0 Command
'' frames line => usage 0 Command
frames => usage 1 Missing
frames --block 2 => usage 3 Missing
frames --in=a => usage 2 Missing
frames --in a --limit=3 => usage 4 Missing
frames line --block 1 => frames line/any/strip/1048576 block 1
frames line --block 1048576 => frames line/any/strip/1048576 block 1048576
frames line --block=7 => frames line/any/strip/1048576 block 7
frames line --block 65536 => frames line/any/strip/1048576
frames line --block 0 => usage 3 Value
frames line --block 1048577 => usage 3 Value
frames line --block 01 => usage 3 Value
frames line --block 9999999999999 => usage 3 Value
frames line --block 10000000000000 => usage 3 Value
frames line --block x => usage 3 Value
frames line --block +1 => usage 3 Value
frames line --block 1=2 => usage 3 Value
frames line --block '' => usage 3 Value
frames line --block= => usage 2 Value
frames line --block=0 => usage 2 Value
frames line --block=-1 => usage 2 Value
frames line --block=1=2 => usage 2 Value
frames line --block -1 => usage 2 Value
frames line --block - => usage 2 Value
frames line --block => usage 2 Value
frames line --block --limit => usage 2 Value
frames line --block --block => usage 2 Value
frames --block --block 1 line => usage 1 Value
frames line --limit 0 => frames line/any/strip/1048576 limit 0
frames line --limit=1 => frames line/any/strip/1048576 limit 1
frames line --limit 1099511627775 => frames line/any/strip/1048576 limit 1099511627775
frames line --limit 1099511627776 => frames line/any/strip/1048576
frames line --limit 1099511627777 => usage 3 Value
frames line --limit 9999999999999 => usage 3 Value
frames line --limit 00 => usage 3 Value
frames line --limit= => usage 2 Value
frames line --limit => usage 2 Value
frames line --limit -0 => usage 2 Value
frames line --limit=-0 => usage 2 Value
frames line --in a => frames line/any/strip/1048576 in a
frames line --in=z9_.- => frames line/any/strip/1048576 in z9_.-
frames line --in abbbbbbbbbbbbbbbbbbbbbbbbbbbbbbbbbbbbbbbbbbbbbbbbbbbbbbbbbbbbbbb => frames line/any/strip/1048576 in abbbbbbbbbbbbbbbbbbbbbbbbbbbbbbbbbbbbbbbbbbbbbbbbbbbbbbbbbbbbbbb
frames line --in abbbbbbbbbbbbbbbbbbbbbbbbbbbbbbbbbbbbbbbbbbbbbbbbbbbbbbbbbbbbbbbb => usage 3 Value
frames line --in A => usage 3 Value
frames line --in 1a => usage 3 Value
frames line --in _a => usage 3 Value
frames line --in .a => usage 3 Value
frames line --in aB => usage 3 Value
frames line --in a/b => usage 3 Value
frames line --in a@1 => usage 3 Value
frames line --in a=b => usage 3 Value
frames line --in é => usage 3 Value
frames line --in '' => usage 3 Value
frames line --in= => usage 2 Value
frames line --in=-a => usage 2 Value
frames line --in -a => usage 2 Value
frames line --in => usage 2 Value
frames --block 4 line => frames line/any/strip/1048576 block 4
frames --block=4 line --in b --limit 7 => frames line/any/strip/1048576 block 4 limit 7 in b
frames --in line line => frames line/any/strip/1048576 in line
frames --limit 3 --block 2 --in c fixed,size=1 => frames fixed/1 block 2 limit 3 in c
frames --block 1 --block 2 line => usage 3 Twice
frames line --block 1 --block => usage 4 Twice
frames line --block 1 --block=0 => usage 4 Twice
frames line --block 1 --block -1 => usage 4 Twice
frames line --block=1 --block 1 => usage 3 Twice
frames line --limit=1 --limit=1 => usage 3 Twice
frames line --in a --in=b => usage 4 Twice
frames line --in a --limit 1 --in => usage 6 Twice
frames line --block 0 --block 0 => usage 3 Value
frames line --cap 1 => usage 2 Option
frames line --out raw => usage 2 Option
frames line --out=raw => usage 2 Option
frames line --slow wait => usage 2 Option
frames line --stages upper => usage 2 Option
frames line - => usage 2 Option
frames line -- => usage 2 Option
frames line -b => usage 2 Option
frames line -1 => usage 2 Option
frames line --Block 1 => usage 2 Option
frames line --block2 1 => usage 2 Option
frames line --bloc 1 => usage 2 Option
frames line ---block 1 => usage 2 Option
frames line -block 1 => usage 2 Option
frames line --help => usage 2 Option
frames line --=1 => usage 2 Option
frames line --no=3 => usage 2 Option
frames --no line => usage 1 Option
frames -- line => usage 1 Option
frames line line => usage 2 Extra
frames line x => usage 2 Extra
frames line '' => usage 2 Extra
frames line length,field=3 => usage 2 Extra
frames line --block 1 x => usage 4 Extra
frames line --block=1 x => usage 3 Extra
frames line x --block => usage 2 Extra
frames line x --no => usage 2 Extra
frames x --block 0 => usage 1 Codec
frames x --no => usage 1 Codec
frames x y => usage 1 Codec
frames --block 0 x => usage 2 Value
frames --block=0 x => usage 1 Value
frames --no x => usage 1 Option
frames length,field=3 y => usage 1 BadField
frames --in a x => usage 3 Codec
frames '' => usage 1 Codec
frames '' --block => usage 1 Codec
";

// Codec words.
pub(crate) const CODECS: &str = "\
frames length,field=1 => frames length/1/0/0/0/be/1048576
frames length,field=2 => frames length/2/0/0/0/be/1048576
frames length,field=4 => frames length/4/0/0/0/be/1048576
frames length,field=8 => frames length/8/0/0/0/be/1048576
frames length,field=1,strip=1 => frames length/1/0/0/1/be/1048576
frames length,strip=1,field=1 => frames length/1/0/0/1/be/1048576
frames length,field=2,offset=3,adjust=-2,strip=5,order=le,max=100 => frames length/2/3/-2/5/le/100
frames length,max=100,order=be,strip=0,adjust=7,offset=0,field=4 => frames length/4/0/7/0/be/100
frames length => usage 1 Codec
frames length, => usage 1 Codec
frames length,field => usage 1 Codec
frames length,field= => usage 1 Codec
frames length,field=1, => usage 1 Codec
frames length,,field=1 => usage 1 Codec
frames length,field=1,strip => usage 1 Codec
frames length,field=1,=1 => usage 1 Codec
frames length,field=1,field=1 => usage 1 Codec
frames length,field=1,max=9,max=9 => usage 1 Codec
frames length,field=1,size=2 => usage 1 Codec
frames length,field=1,hex=00 => usage 1 Codec
frames length,field=1,end=lf => usage 1 Codec
frames length,field=1,Strip=1 => usage 1 Codec
frames length,strip=1 => usage 1 Codec
frames length,field==1 => usage 1 Codec
frames length,field=1=1 => usage 1 Codec
frames length,field=01 => usage 1 Codec
frames length,field=+1 => usage 1 Codec
frames length,field=-1 => usage 1 Codec
frames length,field=a => usage 1 Codec
frames length,field=1a => usage 1 Codec
frames length;field=1 => usage 1 Codec
frames Length,field=1 => usage 1 Codec
frames length=1 => usage 1 Codec
frames field=1,length => usage 1 Codec
frames length,field=0 => usage 1 BadField
frames length,field=3 => usage 1 BadField
frames length,field=5 => usage 1 BadField
frames length,field=7 => usage 1 BadField
frames length,field=9 => usage 1 BadField
frames length,field=255 => usage 1 BadField
frames length,field=256 => usage 1 Codec
frames length,field=9999999999999 => usage 1 Codec
frames length,field=3,max=0 => usage 1 BadField
frames length,field=1,offset=16777215,max=16777216 => frames length/1/16777215/0/0/be/16777216
frames length,field=1,offset=16777216,max=16777216 => usage 1 OffsetOver
frames length,field=1,offset=16777216 => usage 1 OffsetOver
frames length,field=1,offset=16777217 => usage 1 Codec
frames length,field=1,offset= => usage 1 Codec
frames length,field=1,offset=-0 => usage 1 Codec
frames length,field=1,strip=16777216 => frames length/1/0/0/16777216/be/1048576
frames length,field=1,strip=16777217 => usage 1 Codec
frames length,field=1,strip=yes => usage 1 Codec
frames length,field=1,adjust=65536 => frames length/1/0/65536/0/be/1048576
frames length,field=1,adjust=65537 => usage 1 Codec
frames length,field=1,adjust=-65536 => frames length/1/0/-65536/0/be/1048576
frames length,field=1,adjust=-65537 => usage 1 Codec
frames length,field=1,adjust=-3 => frames length/1/0/-3/0/be/1048576
frames length,field=1,adjust=0 => frames length/1/0/0/0/be/1048576
frames length,field=1,adjust=-0 => frames length/1/0/0/0/be/1048576
frames length,field=1,adjust=- => usage 1 Codec
frames length,field=1,adjust= => usage 1 Codec
frames length,field=1,adjust=--1 => usage 1 Codec
frames length,field=1,adjust=+1 => usage 1 Codec
frames length,field=1,adjust=-01 => usage 1 Codec
frames length,field=1,adjust=00 => usage 1 Codec
frames length,field=1,order=le => frames length/1/0/0/0/le/1048576
frames length,field=1,order=BE => usage 1 Codec
frames length,field=1,order= => usage 1 Codec
frames length,field=1,order=little => usage 1 Codec
frames length,field=1,max=1 => frames length/1/0/0/0/be/1
frames length,field=1,max=0 => usage 1 ZeroLen
frames length,field=1,max=16777216 => frames length/1/0/0/0/be/16777216
frames length,field=1,max=16777217 => usage 1 MaxOver
frames length,field=1,max=9999999999999 => usage 1 MaxOver
frames length,field=1,max=10000000000000 => usage 1 Codec
frames length,field=1,max=01 => usage 1 Codec
frames length,field=1,max=00 => usage 1 Codec
frames length,field=1,max= => usage 1 Codec
frames length,field=2,max=1 => usage 1 OffsetOver
frames length,field=1,max=0,offset=5 => usage 1 ZeroLen
frames length,field=1,max=16777217,offset=16777216 => usage 1 MaxOver
frames length,field=8,offset=8,max=16 => frames length/8/8/0/0/be/16
frames length,field=8,offset=9,max=16 => usage 1 OffsetOver
frames line => frames line/any/strip/1048576
frames line,end=any => frames line/any/strip/1048576
frames line,end=lf => frames line/lf/strip/1048576
frames line,end=crlf => frames line/crlf/strip/1048576
frames line,strip=yes => frames line/any/strip/1048576
frames line,strip=no => frames line/any/whole/1048576
frames line,strip=no,end=lf,max=5 => frames line/lf/whole/5
frames line,max=2 => frames line/any/strip/2
frames line,max=0 => usage 1 ZeroLen
frames line,max=16777216 => frames line/any/strip/16777216
frames line,max=16777217 => usage 1 MaxOver
frames line, => usage 1 Codec
frames line,end => usage 1 Codec
frames line,end= => usage 1 Codec
frames line,end=LF => usage 1 Codec
frames line,end=cr => usage 1 Codec
frames line,end=lf,end=lf => usage 1 Codec
frames line,end=lf,strip=no,strip=no => usage 1 Codec
frames line,strip=1 => usage 1 Codec
frames line,strip= => usage 1 Codec
frames line,field=1 => usage 1 Codec
frames line,size=1 => usage 1 Codec
frames Line => usage 1 Codec
frames lines => usage 1 Codec
frames lin => usage 1 Codec
frames delim,hex=00|0000 => frames delim/00|0000/strip/1048576
frames delim,hex=0d0a,strip=no,max=9 => frames delim/0d0a/whole/9
frames delim,max=9,hex=ff => frames delim/ff/strip/9
frames delim,hex=01|02|03|04|05|06|07|08 => frames delim/01|02|03|04|05|06|07|08/strip/1048576
frames delim,hex=01|02|03|04|05|06|07|08|09 => usage 1 DelimOver
frames delim,hex=abababababababababababababababababababababababababababababababababababababababababababababababababababababababababababababababab => frames delim/abababababababababababababababababababababababababababababababababababababababababababababababababababababababababababababababab/strip/1048576
frames delim,hex=cdcdcdcdcdcdcdcdcdcdcdcdcdcdcdcdcdcdcdcdcdcdcdcdcdcdcdcdcdcdcdcdcdcdcdcdcdcdcdcdcdcdcdcdcdcdcdcdcdcdcdcdcdcdcdcdcdcdcdcdcdcdcdcdcd => usage 1 DelimOver
frames delim,hex=00|cdcdcdcdcdcdcdcdcdcdcdcdcdcdcdcdcdcdcdcdcdcdcdcdcdcdcdcdcdcdcdcdcdcdcdcdcdcdcdcdcdcdcdcdcdcdcdcdcdcdcdcdcdcdcdcdcdcdcdcdcdcdcdcdcd => usage 1 DelimOver
frames delim,hex= => usage 1 NoDelim
frames delim,hex=,max=0 => usage 1 ZeroLen
frames delim,hex=,max=16777217 => usage 1 MaxOver
frames delim,hex=| => usage 1 ZeroLen
frames delim,hex=00| => usage 1 ZeroLen
frames delim,hex=|00 => usage 1 ZeroLen
frames delim,hex=00||01 => usage 1 ZeroLen
frames delim,hex=00|,max=16777217 => usage 1 ZeroLen
frames delim,hex=00,max=0 => usage 1 ZeroLen
frames delim,hex=00,max=16777217 => usage 1 MaxOver
frames delim,hex=cdcdcdcdcdcdcdcdcdcdcdcdcdcdcdcdcdcdcdcdcdcdcdcdcdcdcdcdcdcdcdcdcdcdcdcdcdcdcdcdcdcdcdcdcdcdcdcdcdcdcdcdcdcdcdcdcdcdcdcdcdcdcdcdcd,max=0 => usage 1 ZeroLen
frames delim => usage 1 Codec
frames delim,max=9 => usage 1 Codec
frames delim,hex => usage 1 Codec
frames delim,hex=0 => usage 1 Codec
frames delim,hex=000 => usage 1 Codec
frames delim,hex=0A => usage 1 Codec
frames delim,hex=0g => usage 1 Codec
frames delim,hex=g0 => usage 1 Codec
frames delim,hex=00|0 => usage 1 Codec
frames delim,hex==00 => usage 1 Codec
frames delim,hex=00,hex=01 => usage 1 Codec
frames delim,hex=00,end=lf => usage 1 Codec
frames delim,hex=00,strip=maybe => usage 1 Codec
frames fixed,size=1 => frames fixed/1
frames fixed,size=16777216 => frames fixed/16777216
frames fixed,size=0 => usage 1 ZeroLen
frames fixed,size=16777217 => usage 1 MaxOver
frames fixed,size=9999999999999 => usage 1 MaxOver
frames fixed,size=10000000000000 => usage 1 Codec
frames fixed => usage 1 Codec
frames fixed,size= => usage 1 Codec
frames fixed,size=02 => usage 1 Codec
frames fixed,size=2,max=3 => usage 1 Codec
frames fixed,size=2,size=2 => usage 1 Codec
frames fixed,strip=yes => usage 1 Codec
frames raw => usage 1 Codec
frames , => usage 1 Codec
frames = => usage 1 Codec
";

// The words of `chain` and `mill`.
pub(crate) const OTHERS: &str = "\
chain => chain
chain --in a => chain in a
chain --in=a.b => chain in a.b
chain x => usage 1 Extra
chain '' => usage 1 Extra
chain line => usage 1 Extra
chain --in a b => usage 3 Extra
chain b --in => usage 1 Extra
chain --in => usage 1 Value
chain --in A => usage 2 Value
chain --in= => usage 1 Value
chain --in -a => usage 1 Value
chain --in a --in b => usage 3 Twice
chain --in=a --in => usage 2 Twice
chain --block 1 => usage 1 Option
chain --limit 3 => usage 1 Option
chain --out raw => usage 1 Option
chain - => usage 1 Option
chain -- => usage 1 Option
mill 0 => mill 0
mill 1 => mill 1
mill 100000 => mill 100000
mill 100001 => usage 1 Value
mill 9999999999999 => usage 1 Value
mill 10000000000000 => usage 1 Value
mill 01 => usage 1 Value
mill x => usage 1 Value
mill '' => usage 1 Value
mill +1 => usage 1 Value
mill => usage 1 Missing
mill -1 => usage 1 Option
mill - => usage 1 Option
mill 1 2 => usage 2 Extra
mill 1 x => usage 2 Extra
mill 1 '' => usage 2 Extra
mill x y => usage 1 Value
mill 1 --in a => usage 2 Option
mill --in a 1 => usage 1 Option
mill --block=1 1 => usage 1 Option
mill 1 2 --no => usage 2 Extra
";

// The words of `relay`.
pub(crate) const RELAY: &str = "\
relay line --out raw a => relay line/any/strip/1048576 raw a@0..
relay line --out=raw a => relay line/any/strip/1048576 raw a@0..
relay --out raw line a => relay line/any/strip/1048576 raw a@0..
relay line a --out raw b => relay line/any/strip/1048576 raw a@0.. b@0..
relay line a b --out=raw => relay line/any/strip/1048576 raw a@0.. b@0..
relay fixed,size=1 --out length,field=1 a => relay fixed/1 length/1/be a@0..
relay fixed,size=1 --out length,field=2,order=le a => relay fixed/1 length/2/le a@0..
relay fixed,size=1 --out length,order=be,field=8 a => relay fixed/1 length/8/be a@0..
relay fixed,size=1 --out length a => usage 3 Codec
relay fixed,size=1 --out length,field= a => usage 3 Codec
relay fixed,size=1 --out length,field=256 a => usage 3 Codec
relay fixed,size=1 --out length,field=0 a => usage 3 BadField
relay fixed,size=1 --out length,field=3 a => usage 3 BadField
relay fixed,size=1 --out=length,field=255 a => usage 2 BadField
relay fixed,size=1 --out length,field=1,strip=1 a => usage 3 Codec
relay fixed,size=1 --out length,field=1,field=1 a => usage 3 Codec
relay fixed,size=1 --out length,field=1,max=1 a => usage 3 Codec
relay fixed,size=1 --out length,field=1,order=xx a => usage 3 Codec
relay fixed,size=1 --out line a => relay fixed/1 line/lf a@0..
relay fixed,size=1 --out line,end=lf a => relay fixed/1 line/lf a@0..
relay fixed,size=1 --out line,end=crlf a => relay fixed/1 line/crlf a@0..
relay fixed,size=1 --out line,end=any a => usage 3 Codec
relay fixed,size=1 --out line,end= a => usage 3 Codec
relay fixed,size=1 --out line,end=lf,end=lf a => usage 3 Codec
relay fixed,size=1 --out line,strip=yes a => usage 3 Codec
relay fixed,size=1 --out delim,hex=00 a => relay fixed/1 delim/00 a@0..
relay fixed,size=1 --out delim,hex=0d0a a => relay fixed/1 delim/0d0a a@0..
relay fixed,size=1 --out delim,hex=abababababababababababababababababababababababababababababababababababababababababababababababababababababababababababababababab a => relay fixed/1 delim/abababababababababababababababababababababababababababababababababababababababababababababababababababababababababababababababab a@0..
relay fixed,size=1 --out delim,hex=cdcdcdcdcdcdcdcdcdcdcdcdcdcdcdcdcdcdcdcdcdcdcdcdcdcdcdcdcdcdcdcdcdcdcdcdcdcdcdcdcdcdcdcdcdcdcdcdcdcdcdcdcdcdcdcdcdcdcdcdcdcdcdcdcd a => usage 3 DelimOver
relay fixed,size=1 --out=delim,hex=cdcdcdcdcdcdcdcdcdcdcdcdcdcdcdcdcdcdcdcdcdcdcdcdcdcdcdcdcdcdcdcdcdcdcdcdcdcdcdcdcdcdcdcdcdcdcdcdcdcdcdcdcdcdcdcdcdcdcdcdcdcdcdcdcd a => usage 2 DelimOver
relay fixed,size=1 --out delim,hex= a => usage 3 ZeroLen
relay fixed,size=1 --out=delim,hex= a => usage 2 ZeroLen
relay fixed,size=1 --out delim,hex=00|01 a => usage 3 Codec
relay fixed,size=1 --out delim,hex=| a => usage 3 Codec
relay fixed,size=1 --out delim,hex=0 a => usage 3 Codec
relay fixed,size=1 --out delim,hex=0D a => usage 3 Codec
relay fixed,size=1 --out delim a => usage 3 Codec
relay fixed,size=1 --out delim,hex=00,hex=00 a => usage 3 Codec
relay fixed,size=1 --out delim,hex=00,strip=yes a => usage 3 Codec
relay fixed,size=1 --out raw, a => usage 3 Codec
relay fixed,size=1 --out raw,end=lf a => usage 3 Codec
relay fixed,size=1 --out Raw a => usage 3 Codec
relay fixed,size=1 --out fixed,size=1 a => usage 3 Codec
relay fixed,size=1 --out '' a => usage 3 Codec
relay fixed,size=1 --out= a => usage 2 Codec
relay fixed,size=1 --out=- a => usage 2 Codec
relay fixed,size=1 --out -x a => usage 2 Value
relay fixed,size=1 --out => usage 2 Value
relay fixed,size=1 a --out --cap 1 => usage 3 Value
relay line --out raw --out raw a => usage 4 Twice
relay line --out raw --out a => usage 4 Twice
relay line --out=raw a --out= => usage 4 Twice
relay line --out raw --stages upper a => relay line/any/strip/1048576 raw upper a@0..
relay line --out raw --stages strip=1 a => relay line/any/strip/1048576 raw strip=1 a@0..
relay line --out raw --stages keep=0 a => relay line/any/strip/1048576 raw keep=0 a@0..
relay line --out raw --stages=min=16777216 a => relay line/any/strip/1048576 raw min=16777216 a@0..
relay line --out raw --stages upper+strip=1+keep=2+min=3 a => relay line/any/strip/1048576 raw upper+strip=1+keep=2+min=3 a@0..
relay line --out raw --stages upper+upper+upper+upper+upper+upper+upper+upper+upper+upper+upper+upper+upper+upper+upper+upper a => relay line/any/strip/1048576 raw upper+upper+upper+upper+upper+upper+upper+upper+upper+upper+upper+upper+upper+upper+upper+upper a@0..
relay line --out raw --stages upper+upper+upper+upper+upper+upper+upper+upper+upper+upper+upper+upper+upper+upper+upper+upper+upper a => usage 5 Value
relay line --out raw --stages strip=16777217 a => usage 5 Value
relay line --out raw --stages keep=16777217 a => usage 5 Value
relay line --out raw --stages min=16777217 a => usage 5 Value
relay line --out raw --stages '' a => usage 5 Value
relay line --out raw --stages + a => usage 5 Value
relay line --out raw --stages upper+ a => usage 5 Value
relay line --out raw --stages +upper a => usage 5 Value
relay line --out raw --stages strip a => usage 5 Value
relay line --out raw --stages strip= a => usage 5 Value
relay line --out raw --stages strip=01 a => usage 5 Value
relay line --out raw --stages Upper a => usage 5 Value
relay line --out raw --stages upper=1 a => usage 5 Value
relay line --out raw --stages min=-1 a => usage 5 Value
relay line --out raw --stages strip=1,keep=2 a => usage 5 Value
relay line --out raw --stages= a => usage 4 Value
relay line --out raw a --stages => usage 5 Value
relay line --out raw --stages upper --stages upper a => usage 6 Twice
relay line --out raw --cap 1 a => relay line/any/strip/1048576 raw cap 1 a@0..
relay line --out raw --cap 64 a => relay line/any/strip/1048576 raw a@0..
relay line --out raw --cap=1024 a => relay line/any/strip/1048576 raw cap 1024 a@0..
relay line --out raw --cap 0 a => usage 5 Value
relay line --out raw --cap 1025 a => usage 5 Value
relay line --out raw --cap=0 a => usage 4 Value
relay line --out raw --cap -1 a => usage 4 Value
relay line --out raw --cap 1 --cap 1 a => usage 6 Twice
relay line --out raw --slow wait a => relay line/any/strip/1048576 raw a@0..
relay line --out raw --slow=drop a => relay line/any/strip/1048576 raw drop a@0..
relay line --out raw --slow Drop a => usage 5 Value
relay line --out raw --slow '' a => usage 5 Value
relay line --out raw --slow a => usage 5 Value
relay line --out raw a --slow => usage 5 Value
relay line --out raw --slow wait --slow drop a => usage 6 Twice
relay line --out raw --block 0 a => usage 5 Value
relay line --out raw --block 1 --limit 0 --in b a => relay line/any/strip/1048576 raw block 1 limit 0 in b a@0..
relay line --out raw --limit 1099511627777 a => usage 5 Value
relay line --out raw --in B a => usage 5 Value
relay line --out raw --no a => usage 4 Option
relay line --out raw a - => usage 5 Option
relay line --out raw a -- => usage 5 Option
relay line --out raw a@1 => relay line/any/strip/1048576 raw a@1..
relay line --out raw a@0..0 => relay line/any/strip/1048576 raw a@0..0
relay line --out raw a@1..1 => relay line/any/strip/1048576 raw a@1..1
relay line --out raw a@9..10 => relay line/any/strip/1048576 raw a@9..10
relay line --out raw a@0..9999999999999 => relay line/any/strip/1048576 raw a@0..9999999999999
relay line --out raw a@9999999999999 => relay line/any/strip/1048576 raw a@9999999999999..
relay line --out raw a@10000000000000 => usage 4 Sub
relay line --out raw a@0..10000000000000 => usage 4 Sub
relay line --out raw a@1..0 => usage 4 Sub
relay line --out raw a@10..9 => usage 4 Sub
relay line --out raw a@ => usage 4 Sub
relay line --out raw a@1.. => usage 4 Sub
relay line --out raw a@..2 => usage 4 Sub
relay line --out raw a@.. => usage 4 Sub
relay line --out raw a@1.2 => usage 4 Sub
relay line --out raw a@1...2 => usage 4 Sub
relay line --out raw a@1..2..3 => usage 4 Sub
relay line --out raw a@1. => usage 4 Sub
relay line --out raw a@@1 => usage 4 Sub
relay line --out raw a@1@2 => usage 4 Sub
relay line --out raw a@-1 => usage 4 Sub
relay line --out raw a@01 => usage 4 Sub
relay line --out raw a@1..02 => usage 4 Sub
relay line --out raw a@x => usage 4 Sub
relay line --out raw @1 => usage 4 Sub
relay line --out raw A => usage 4 Sub
relay line --out raw 1a => usage 4 Sub
relay line --out raw _a => usage 4 Sub
relay line --out raw a/b => usage 4 Sub
relay line --out raw a,b => usage 4 Sub
relay line --out raw '' => usage 4 Sub
relay line --out raw abbbbbbbbbbbbbbbbbbbbbbbbbbbbbbbbbbbbbbbbbbbbbbbbbbbbbbbbbbbbbbb => relay line/any/strip/1048576 raw abbbbbbbbbbbbbbbbbbbbbbbbbbbbbbbbbbbbbbbbbbbbbbbbbbbbbbbbbbbbbbb@0..
relay line --out raw abbbbbbbbbbbbbbbbbbbbbbbbbbbbbbbbbbbbbbbbbbbbbbbbbbbbbbbbbbbbbbbb => usage 4 Sub
relay line --out raw a..b a.b@1..2 a-_9 => relay line/any/strip/1048576 raw a..b@0.. a.b@1..2 a-_9@0..
relay line --out raw line raw => relay line/any/strip/1048576 raw line@0.. raw@0..
relay line --out raw a a => usage 5 Twice
relay line --out raw a a@1 => usage 5 Twice
relay line --out raw a@1 b a@2..3 => usage 6 Twice
relay line a --out raw a => usage 5 Twice
relay line --out raw a a@x => usage 5 Sub
relay line --out raw a A => usage 5 Sub
relay line --out raw a ab => relay line/any/strip/1048576 raw a@0.. ab@0..
relay line a a --out x => usage 3 Twice
relay a --out raw line => usage 1 Codec
relay length,field=3 --out x a => usage 1 BadField
relay --out x length,field=3 a => usage 2 Codec
relay => usage 1 Missing
relay line => usage 2 Missing
relay line a => usage 3 Missing
relay line --out raw => usage 4 Missing
relay line --out=raw => usage 3 Missing
relay --out raw => usage 3 Missing
relay --out raw line => usage 4 Missing
relay line --out raw --in b => usage 6 Missing
relay line --in b c => usage 5 Missing
relay length,field=1 --out length,field=1 a => usage 3 OutOver
relay length,field=1 --out=length,field=1 a => usage 2 OutOver
relay --out length,field=1 length,field=1 a => usage 2 OutOver
relay length,field=1 a --in b --out length,field=1 => usage 6 OutOver
relay length,field=1,strip=1 --out length,field=1 a => relay length/1/0/0/1/be/1048576 length/1/be a@0..
relay length,field=1,adjust=-1 --out length,field=1 a => relay length/1/0/-1/0/be/1048576 length/1/be a@0..
relay length,field=1,adjust=-300 --out length,field=1 a => relay length/1/0/-300/0/be/1048576 length/1/be a@0..
relay length,field=1,adjust=1,strip=1 --out length,field=1 a => usage 3 OutOver
relay length,field=2,max=255 --out length,field=1 a => relay length/2/0/0/0/be/255 length/1/be a@0..
relay length,field=2,max=256 --out length,field=1 a => usage 3 OutOver
relay length,field=8,max=16777216 --out length,field=4 a => relay length/8/0/0/0/be/16777216 length/4/be a@0..
relay line --out length,field=2 a => usage 3 OutOver
relay line --out length,field=4 a => relay line/any/strip/1048576 length/4/be a@0..
relay line,max=65535 --out length,field=2 a => relay line/any/strip/65535 length/2/be a@0..
relay line,max=65536 --out length,field=2 a => usage 3 OutOver
relay line,max=65533,strip=no --out length,field=2 a => relay line/any/whole/65533 length/2/be a@0..
relay line,max=65534,strip=no --out length,field=2 a => usage 3 OutOver
relay line,end=lf,max=65534,strip=no --out length,field=2 a => relay line/lf/whole/65534 length/2/be a@0..
relay line,end=lf,max=65535,strip=no --out length,field=2 a => usage 3 OutOver
relay line,end=crlf,max=65534,strip=no --out length,field=2 a => usage 3 OutOver
relay delim,hex=00|0000,max=65533,strip=no --out length,field=2 a => relay delim/00|0000/whole/65533 length/2/be a@0..
relay delim,hex=00|0000,max=65534,strip=no --out length,field=2 a => usage 3 OutOver
relay delim,hex=00|0000,max=65535 --out length,field=2 a => relay delim/00|0000/strip/65535 length/2/be a@0..
relay fixed,size=255 --out length,field=1 a => relay fixed/255 length/1/be a@0..
relay fixed,size=256 --out length,field=1 a => usage 3 OutOver
relay length,field=1 --out line a => relay length/1/0/0/0/be/1048576 line/lf a@0..
relay length,field=1 --out length,field=1 => usage 4 Missing
relay length,field=1 --out length,field=1 --in a a => usage 3 OutOver
relay line --out raw --in a a => usage 6 InOut
relay line --out raw b a --in=a => usage 5 InOut
relay line --out raw a@3 --in a => usage 4 InOut
relay line --in a --out=raw c b a@1..2 d => usage 7 InOut
relay line --out raw --in a ab => relay line/any/strip/1048576 raw in a ab@0..
relay length,field=1,strip=1 --out length,field=1 --stages upper+min=2 --block 5 --cap 2 --slow drop --limit 9 --in x a b@1..2 => relay length/1/0/0/1/be/1048576 length/1/be upper+min=2 block 5 cap 2 drop limit 9 in x a@0.. b@1..2
relay --in=x --limit=9 --slow=wait --cap=3 --block=6 --stages=keep=4 --out=line,end=crlf fixed,size=3 c@7 => relay fixed/3 line/crlf keep=4 block 6 cap 3 limit 9 in x c@7..
";
