//! The page of a film, as `tests/film-page --write` writes it from `data/viewer.html`.

/// The page before the data of the film.
pub const HEAD: &str = r##"<!DOCTYPE html>
<html lang="en">
<head>
<meta charset="utf-8">
<meta name="viewport" content="width=device-width,initial-scale=1">
<title>A run</title>
<style>
:root{color-scheme:light;--bg:#f5f3ed;--fg:#1c1b18;--dim:#5a564c;--line:#d5d0c2;--edge:#8a8576;--card:#fff;--acc:#0b5c8a;--on:#fff;--now:#ffe08a;--last:#dcebf5;--chg:#b3261e;--ok:#1a6b34;--heat:214,110,20}
@media screen{:root.dark{color-scheme:dark;--bg:#15171a;--fg:#ebe8e1;--dim:#aaa598;--line:#383c42;--edge:#7b7f86;--card:#1f2226;--acc:#7cc4f0;--on:#10222e;--now:#6b5200;--last:#1d3646;--chg:#ff9d94;--ok:#7fd69a;--heat:205,110,35}}
*{box-sizing:border-box}
html{scroll-padding:var(--hh,0) 0 var(--pb,0)}
body{margin:0;background:var(--bg);color:var(--fg);font:16px/1.4 system-ui,sans-serif}
.m,code,pre,#src table,#mem,.regs b,input,output{font-family:ui-monospace,"DejaVu Sans Mono",Menlo,Consolas,monospace}
header{position:sticky;top:0;z-index:5;background:var(--bg);padding:8px 12px 4px;border-bottom:1px solid var(--line);margin-bottom:12px;display:flex;flex-wrap:wrap;gap:6px 14px;align-items:center}
.t{flex:1 0 100%}#nav{display:contents}#bar{order:1}#at{order:2}
[hidden]{display:none!important}
h1{font-size:1.15rem;margin:0;display:inline;overflow-wrap:anywhere}
#pos{margin:0 .8em;font-variant-numeric:tabular-nums}
#pos output{font-size:1.1em;font-weight:700}
h2{font-size:.8rem;letter-spacing:.03em;margin:0 0 6px;color:var(--dim);font-weight:600}
section{background:var(--card);border:1px solid var(--line);border-radius:8px;padding:10px 12px;min-width:0}
main{display:grid;gap:12px;padding:0 12px;align-items:start;grid-template-columns:minmax(0,1fr) min(35rem,45%);grid-template-areas:"src say" "src scr" "src cpu" "src mem";grid-template-rows:auto auto auto 1fr}
#says{grid-area:say}#src{grid-area:src}#scrs{grid-area:scr}#cpu{grid-area:cpu}#mems{grid-area:mem}
.row{display:flex;flex-wrap:wrap;gap:6px;align-items:center}
button,select,input[type=text]{font:inherit;font-size:.94rem;color:var(--fg);background:var(--card);border:1px solid var(--edge);border-radius:6px;padding:3px 10px;min-height:34px}
input[type=text]{font-family:ui-monospace,monospace}
button:hover{border-color:var(--acc);color:var(--acc)}
button.big,button[aria-pressed=true]{background:var(--acc);color:var(--on);border-color:var(--acc)}
a{color:var(--acc)}
:focus-visible{outline:3px solid var(--acc);outline-offset:1px}
#at{width:100%;accent-color:var(--acc);margin:0;height:24px;display:block}
#say{min-height:4.4em;font-size:1.08rem}
#say p{margin:0 0 .3em}
#strip{display:none;margin:.2em 0 0;font-size:.94rem}
#say code{font-weight:700}
.stop{border-left:4px solid var(--chg);padding-left:8px;color:var(--chg);font-weight:600}
.stop.ok{border-color:var(--ok);color:var(--ok)}
.chap{border-left:4px solid var(--acc);padding-left:8px;white-space:pre-wrap;overflow-wrap:anywhere}
#chs{flex:1;min-width:0}
#src{position:sticky;top:var(--hh,130px);max-height:calc(100vh - var(--hh,130px) - 12px);overflow:auto;padding:0;scrollbar-gutter:stable}
#src h2{padding:10px 12px 0}
#src table{border-collapse:collapse;width:100%;font-size:.85rem;line-height:1.45}
#src th{text-align:right;font-weight:400;color:var(--dim);position:sticky;top:0;background:var(--card);padding:2px 6px;z-index:1}
#src th:nth-child(n+4){text-align:left}
#src td{padding:0 6px;white-space:pre;color:var(--dim);text-align:right;vertical-align:top}
#src td:nth-child(n+4){text-align:left}
#src td:last-child{color:var(--fg);width:99%;white-space:pre-wrap;padding-left:7ch;text-indent:-6ch;overflow-wrap:anywhere}
#src i{font-style:normal;color:var(--dim)}
#src .x{cursor:pointer}
#src .x:hover td:nth-child(2){color:var(--acc);font-weight:700}
#src .was td{background:var(--last)}
#src .now td{background:var(--now);color:var(--fg)}
#src .now i{color:inherit}
#src .now td:last-child{font-weight:700}
#src td.h{background:rgba(var(--heat),var(--w,0));color:var(--fg);min-width:4.6em}
#src .bp td:nth-child(2)::before{content:"\25CF ";color:var(--chg)}
#src td:nth-child(2){min-width:4.4em}
.key{display:inline-block;padding:0 6px;border-radius:3px;color:var(--fg)}
#tv{position:relative;background:#000;border-radius:6px;padding:8px;max-width:calc((100vh - 330px)*1.5);min-width:min(100%,300px);margin:auto}
#tv div{position:relative}
canvas{display:block;width:100%;image-rendering:pixelated;cursor:crosshair}
#ov{position:absolute;inset:0;pointer-events:none}
.regs{display:flex;flex-wrap:wrap;gap:6px}
.regs button{line-height:1.2;padding:3px 9px;text-align:left}
.regs b{font-size:1.05rem;display:block}
.regs small{color:var(--dim)}
.regs span{border:1px solid transparent;border-radius:6px;padding:3px 5px;text-align:center;line-height:1.2}
.regs .ch,.regs .ch small{color:var(--chg);border-color:var(--chg)}
.regs .ch b::after{content:"*"}
#stk{margin:8px 0 0;font-size:.87rem}
#mem{border-collapse:collapse;margin-top:6px;font-size:.84rem}
#mem th{font-weight:400;color:var(--dim);padding:0 3px}
#mem td{padding:1px 2.5px;text-align:center;cursor:pointer;border:1px solid transparent}
#mem td:hover,#mem .sel{border-color:var(--acc);background:var(--last)}
#mem .ever{font-weight:700}
#mem .zero{color:var(--dim)}
#mem .ch{background:var(--chg);color:var(--card);font-weight:700}
#mem th:last-child{text-align:left;white-space:pre}
#whot{margin:8px 0 0;min-height:2.8em}
.sr{position:absolute;width:1px;height:1px;overflow:hidden;clip-path:inset(50%);white-space:pre}
footer{color:var(--dim);font-size:.87rem;padding:12px}
kbd{border:1px solid var(--edge);border-radius:4px;padding:0 5px;font:.85em ui-monospace,monospace}
@media (min-width:1700px){main{grid-template-columns:minmax(0,1fr) minmax(0,31rem) 37rem;grid-template-areas:"src say say" "src scr mem" "src cpu mem";grid-template-rows:auto auto 1fr}body{font-size:17px}#mem{font-size:.8rem}}
@media (max-width:900px){#src :is(td,th):nth-child(4){display:none}}
@media (max-width:640px){main{grid-template-columns:minmax(0,1fr);grid-template-areas:"say" "scr" "src" "cpu" "mem";grid-template-rows:none;padding:0 6px}header{padding:6px 8px;position:static;border:0;margin:0;display:block}#bar{flex-wrap:nowrap;overflow-x:auto;scrollbar-width:none;white-space:nowrap;margin-top:6px;padding:3px}#nav{display:block}
html{--pb:110px}#nav{position:fixed;bottom:0;left:0;right:0;z-index:6;background:var(--bg);border-top:1px solid var(--line);padding:2px 8px 8px}body{padding-bottom:104px}#nav .row{justify-content:space-between;flex-wrap:nowrap;gap:4px}#nav button{min-height:42px;padding:3px 8px}
#src{max-height:44vh;position:relative;top:0}#tv{max-width:calc(40vh*1.46);padding:4px}#strip{display:block}#say{min-height:6.2em}.regs{gap:4px}.regs button{padding:3px 7px}section{padding:8px}#mem{width:100%;table-layout:fixed;font-size:min(.8rem,2.85vw)}#mem tr>:first-child{width:4.6ch}#mem th{padding:0}#mem td{padding:2px 0;width:2.2ch;border-width:0 1px}#mem th:last-child{display:none}}
@media (max-width:560px){#src :is(td,th):nth-child(3){display:none}#src td{padding:0 3px}#src td.h{min-width:3em}#src td:nth-child(2){min-width:3.2em}.wide{display:none}}
@media print{:root{--bg:#fff;--fg:#000;--dim:#444}header{position:static}#nav,#bar,#chap,#memc,#whot,footer,.key,#at,.noprint{display:none!important}body{font-size:11px;padding:0}@page{margin:12mm}#tv.text{background:#fff;border:1px solid #000}#tv.text canvas{filter:invert(1)}#strip{display:none!important}#src{position:static;max-height:none;overflow:visible}main{display:block;padding:0}main section{border:0;padding:4px 0;break-inside:avoid}#src{break-inside:auto!important}#tv{width:300px;margin:0}#say{min-height:0}.h,.now td,.was td,#tv,#mem .ch{print-color-adjust:exact;}}
</style>
</head>
<body>
<header id=hd>
<div class=t><h1 id=title>A run</h1><span id=pos>step <output id=no>0</output> of <span id=of></span> &#xB7; <output id=cy>0</output> cycles</span><a id=link class=noprint href="#step=0">link to this step</a></div>
<div class=row id=bar><button id=back title="Key B">&#x2190; Breakpoint</button><button id=run title="Key b">Breakpoint &#x2192;</button><button id=over title="Key o: runs a called subroutine as one step">Over call &#x2192;</button><label>Step <input id=goto type=text inputmode=numeric size=8 title="Key /" aria-label="Go to step"></label><button id=gob>Go</button><label><span class=wide>Speed </span><select id=speed aria-label="Playback speed"><option value=2>2 steps per second<option value=10 selected>10 per second<option value=60>60 per second<option value=1000>1000 per second<option value=20000>20 000 per second</select></label><button id=dark aria-pressed=false>Dark</button></div>
<nav id=nav aria-label="Move through the run"><input type=range id=at min=0 value=0 aria-label="Step of the run"><div class=row><button id=home title=Home>Start</button><button id=b1 class=big title="Left arrow">&#x25C0; Back</button><button id=play title=Space>&#x25B6; Play</button><button id=f1 class=big title="Right arrow">Step &#x25B6;</button><button id=end title=End>End</button></div></nav>
</header>
<main>
<section id=says aria-label="What happens"><div class=row id=chap hidden><button id=c0 title="Key C">&#x25C0; Chapter</button><button id=c1 class=big title="Key c">Chapter &#x25B6;</button><select id=chs aria-label=Chapter></select></div><div id=say aria-live=polite></div><p id=strip class=m aria-hidden=true></p></section>
<section id=src tabindex=0 aria-label="Program. Up and Down move between instructions. Enter sets or removes a breakpoint."><h2>Program <span class=key style="background:var(--now)">next</span> <span class=key style="background:var(--last)">just executed</span> <span class=key style="background:rgba(var(--heat),.4)">how often</span></h2><table><thead><tr><th scope=col>times<th scope=col>line<th scope=col>address<th scope=col>bytes<th scope=col>source</thead><tbody id=lines></tbody></table></section>
<section id=scrs><h2 id=scrh>Screen</h2><div id=tv><div><canvas id=scr width=560 height=384 role=img aria-label=Screen aria-describedby=scrt></canvas><canvas id=ov width=1120 height=768 aria-hidden=true></canvas></div></div><pre id=scrt class=sr></pre></section>
<section id=cpu><h2>Processor <span class=noprint>(click to see what changed it)</span></h2><div class=regs id=regs></div><div id=flags class=regs style="margin-top:6px"></div><p class=m id=stk></p></section>
<section id=mems><h2 id=memh>Memory <span class=noprint>(click to see what wrote it, again to go there)</span></h2><div class=row id=memc><button id=pgm aria-label="Previous page">&#x25C0;</button><select id=pg aria-label="Page of memory"></select><button id=pgp aria-label="Next page">&#x25B6;</button><label><input id=fol type=checkbox> follow</label><label>Byte <input id=adr type=text size=7></label></div>
<table id=mem role=grid aria-labelledby=memh></table>
<p id=whot role=status></p></section>
</main>
<footer><kbd>&#x2192;</kbd> step <kbd>&#x2190;</kbd> back, <kbd>Shift</kbd> ten steps at once <kbd>Home</kbd> start <kbd>End</kbd> end <kbd>Space</kbd> play or pause &#xB7; click a line to set or remove a breakpoint, or press <kbd>x</kbd> for the next line <kbd>b</kbd> to the next breakpoint <kbd>B</kbd> back to the previous one <kbd>o</kbd> over a call <kbd>O</kbd> back over one <kbd>/</kbd> go to a step <kbd>c</kbd> next chapter <kbd>C</kbd> previous chapter &#xB7; click a byte, a screen cell or a register, then press <kbd>w</kbd> to go to the step that wrote it, <kbd>n</kbd> to the next one that does, <kbd>r</kbd> to return<p>It is proved that the data of this film are those of the run. The code that shows them is not proved, but tested.</footer>
<script type="text/plain" id="film">"##;

/// The page after the data of the film.
pub const TAIL: &str = r##"</script>
<script>
"use strict";
const $=i=>document.getElementById(i),T_=document,chr=String.fromCharCode,{max,min,floor,ceil,log,abs}=Math,txt=(i,t)=>$(i).textContent=t,h=(v,n)=>v.toString(16).toUpperCase().padStart(n,0),hx=(v,n=2)=>"$"+h(v,n),X=t=>parseInt(t,16),RAM=49152;
const esc=t=>t.replace(/[&<>"]/g,c=>"&#"+c.charCodeAt()+";");
// ---- the film: first its head, then a row for each step
let T=$("film").textContent;const F={source:[],list:[],names:[],ch:[]},start=new Uint8Array(RAM);
const utf=t=>{const b=[];for(let i=0;i<t.length;i++)b.push(t[i]=="\\"?X(t.substr((i+=2)-1,2)):t.charCodeAt(i));const u=new Uint8Array(b);try{return new TextDecoder("utf-8",{fatal:true}).decode(u)}catch{return chr(...b)}};
// the Monitor's services: address, name, and what each does
const svc={},SAY={};for(const[a,n,w]of [["F800","PLOT","colours the block in row A, column Y"],
["F819","HLINE","colours the blocks in row A from column Y to the column in $2C, or only the one in column Y if that is greater"],
["F828","VLINE","colours the blocks in column Y from row A to the row in $2D, or only the one in row A if that is greater"],
["F832","CLRSCR","makes all blocks black"],
["F864","SETCOL","sets the colour of blocks in all rows"],
["F871","SCRN","sets A to the colour, 0 to 15, of the block in row A, column Y"],
["FC22","VTAB","stores the address of the window's left edge in the cursor's row at $28 and $29"],
["FC42","CLREOP","clears the window from the cursor on: the rest of the cursor's row and the rows below"],
["FC58","HOME","clears the window and puts the cursor at its top left"],
["FC9C","CLREOL","clears the cursor's row from the cursor to the window's right edge"],
["FCA8","WAIT","waits and sets A to 0"],
["FD0C","RDKEY","asks the input hook for a key"],
["FD1B","KEYIN","takes the first waiting key and sets A to that key with bit 7 set"],
["FD6A","GETLN","puts the prompt stored in $33 and takes keys up to a return"],
["FD8E","CROUT","sends a return through the output hook"],
["FDDA","PRBYTE","puts A as two hexadecimal digits, with capital letters and bit 7 set"],
["FDE3","PRHEX","puts the low four bits of A as one hexadecimal digit, with capital letters and bit 7 set"],
["FDED","COUT","sends the character in A through the output hook"],
["FDF0","COUT1","puts the byte in A at the cursor"],
["FE80","SETINV","makes the text that follows inverse"],
["FE84","SETNORM","makes the text that follows normal"]])SAY[svc[X(a)]=n]=esc(w);
const D=c=>c<58?c-48:c<71&&c>64?c-55:-1;
// m, an address and the bytes of RAM from there on; returns the position after them
function bytesAt(t,i,f){let a=X(t.substr(i+1,4));for(i+=5;D(t.charCodeAt(i))>=0;i+=2)f(a++,X(t.substr(i,2)));return i}
let pos=0,S0;
for(;;){let e=T.indexOf("\n",pos);const l=T.slice(pos,e),v=l.slice(2),w=v.split(" ");pos=e+1;
switch(l[0]){case"F":if(l!="FILM 1")throw Error("not a film");break;case"T":F.title=utf(v);break;case"G":F.free=v=="FREE";break;case"K":F.keys=v;break;case"B":F.from=+w[0];F.cy=+w[1];break;case"C":case"D":F.ch.push([l[0],+w[0],utf(w.slice(1).join(" "))]);break;case"S":F.source.push(utf(v));break;case"L":F.list.push([+w[0],X(w[1]),+w[2]]);break;case"N":F.names.push([utf(w[0]),X(w[1])]);break;case"M":for(let i=2;i<l.length;)i=bytesAt(l,i,(a,b)=>start[a]=b)}
if(l[0]=="R"){S0=w.map(X);break}if(e<0)throw Error("a film without steps")}
const B=F.from,last=T.lastIndexOf("\nSTOP ");F.stop=T.slice(last+6).trim();
// a statement: its line, its address, its bytes as digits
for(const q of F.list){let b="";for(let i=0;i<q[2];i++)b+=h(start[q[1]+i],2);q[2]=b}
let N=0,total=0;
for(let i=pos;i<=last;i++){const c=T.charCodeAt(i);if(c==10)N++;else if(c==109){let j=i+5;while(T.charCodeAt(j)<71&&T.charCodeAt(j)>47)j++;total+=(j-i-5)/2;i=j-1}}
const PC=new Uint16Array(N+1),CY=new Float64Array(N+1),REG={},KEY=new Uint32Array(N+1),COME=new Uint32Array(N+1),FIRST=new Uint32Array(N+2),ADR=new Uint16Array(total),NEW=new Uint8Array(total),OLD=new Uint8Array(total);
for(const r of"axyspw")REG[r]=new Uint8Array(N+1);
const GAP=max(1000,ceil(N/100)),KEYF=[],ram=start.slice(),SW=REG.w;
PC[0]=S0[0];CY[0]=F.cy;COME[0]=F.keys.length/2;[..."axyspw"].forEach((r,i)=>REG[r][0]=S0[i+1]);KEYF.push(start);
{let i=pos,n=0,k=0;
const num=()=>{let v=0,d;while((d=D(T.charCodeAt(i)))>=0){v=v*10+d;i++}return v},hex=m=>{let v=0;while(m--)v=v*16+D(T.charCodeAt(i++));return v};
for(k=1;k<=N;k++){FIRST[k]=n;for(const r in REG)REG[r][k]=REG[r][k-1];KEY[k]=KEY[k-1];COME[k]=COME[k-1];PC[k]=hex(4);CY[k]=CY[k-1]+num();
let t;while((t=T[i++])!="\n"){if(t=="m"){i=bytesAt(T,i-1,(a,b)=>{ADR[n]=a;OLD[n]=ram[a];ram[a]=NEW[n++]=b})}else if(t=="k")KEY[k]+=num();else if(t=="t"){F.keys+=T.slice(i,i+=2);COME[k]++}else if(t=="w")REG.w[k]=hex(1);else REG[t][k]=hex(2)}
if(k%GAP==0)KEYF.push(ram.slice())}
FIRST[N+1]=n;ram.set(start)}
txt("film",T="");
// ---- where we are
let at=0,hits=new Uint32Array(65536),counted=0,sel=-1,selr="",page=4;
function seek(k){
k=max(0,min(N,k|0));
let from=at;if(abs(k-at)>GAP){from=floor(k/GAP);ram.set(KEYF[from]);from*=GAP}
for(let c=FIRST[from+1],e=FIRST[k+1];c<e;c++)ram[ADR[c]]=NEW[c];
for(let c=FIRST[from+1]-1,e=FIRST[k+1];c>=e;c--)ram[ADR[c]]=OLD[c];
while(counted<k)hits[PC[counted++]]++;
while(counted>k)hits[PC[--counted]]--;
at=k}
// ---- the listing
const LINE={},byline={},NAME={},most=new Uint32Array(65536),bps=new Set,rows=[],xs=[],code=[];
for(const s of F.list){byline[s[0]]=s;if(s[2]&&!(s[1]in LINE))LINE[s[1]]=s[0]}
for(const[n,v]of F.names)NAME[v]??=n;
for(let k=0;k<N;k++)most[PC[k]]++;
const MOST=log(1+most.reduce((a,b)=>max(a,b),1)),came=a=>most[a]||PC[N]==a;
const cutc=t=>{let q="";for(let i=0;i<t.length;i++){if(q){if(t[i]==q)q=""}else if(t[i]=="'"||t[i]=='"')q=t[i];else if(t[i]==";")return i}return t.length};
F.source.forEach((t,i)=>{const s=byline[i+1],tr=T_.createElement("tr"),j=t[0]=="*"?0:cutc(t);
code.push((/^\S/.test(t)?t.slice(0,j).replace(/^\S+/,""):t.slice(0,j)).trim().replace(/\s+/g," "));
const b=s?s[2].match(/../g)||[]:[];
tr.innerHTML='<td class="h"><td>'+(i+1)+"<td>"+(s?hx(s[1],4):"")+"<td>"+b.slice(0,3).join(" ")+(b.length>3?"\u2026":"")+"<td><i></i>";
tr.lastChild.prepend(t.slice(0,j));tr.lastChild.lastChild.textContent=t.slice(j);
if(s&&came(s[1])&&LINE[s[1]]==i+1){tr.className="x";tr.tabIndex=-1;tr.onclick=()=>mark(i+1);xs.push(i+1);tell(tr,i+1)}
rows.push(tr)});
$("lines").append(...rows);
function tell(r,l){r.setAttribute("aria-label","line "+l+": "+code[l-1]+(bps.has(byline[l][1])?", breakpoint":""))}
function mark(l){if(!byline[l]||!rows[l-1].onclick)return;const a=byline[l][1];bps.has(a)?bps.delete(a):bps.add(a);rows[l-1].classList.toggle("bp",bps.has(a));tell(rows[l-1],l);hash()}
$("src").onkeydown=e=>{const d=e.key=="ArrowDown"?1:e.key=="ArrowUp"?-1:0,f=rows.indexOf(T_.activeElement)+1;
if(d&&xs.length){let i=f?xs.indexOf(f)+d:max(0,xs.indexOf(LINE[PC[at]]));rows[xs[max(0,min(xs.length-1,i))]-1].focus()}else if(e.key=="Enter"&&f)mark(f);else return;e.preventDefault()};
// ---- chapters, each at a step, or where its line is first the next one
const CH=F.ch.map(([c,n,t])=>({k:c=="C"?n-B:PC.findIndex(p=>LINE[p]==n),t}));for(const c of CH)if(c.k>N)c.k=-1;
CH.sort((a,b)=>(a.k<0)-(b.k<0)||a.k-b.k);
$("chap").hidden=!CH.length;$("chs").innerHTML=CH.map((c,i)=>"<option"+(c.k<0?" disabled":"")+">"+(i+1)+". "+esc(c.t)+(c.k<0?" (not in this film)":"")).join("");
const chap=()=>CH.findLastIndex(c=>c.k>=0&&c.k<=at),walk=d=>{const c=d>0?CH.find(c=>c.k>at):CH.findLast(c=>c.k>=0&&c.k<at);if(c)go(c.k)};
$("chs").onchange=e=>go(CH[e.target.selectedIndex].k);
// ---- plain words
// the causes of a stop: the name, and what it means
const STOP={"RETURNED":"the program returned",
"CODE WRITE":"the next instruction or service would overwrite code",
"WINDOW":"the window, cursor or block position is invalid for the next service",
"KEYS":"the next service needs a key, but none is waiting; give keys with --keys",
"OFF STATEMENT":"no instruction of the source begins at this address",
"ROM":"the next instruction is at or above $C000, where there is no RAM",
"OPCODE":"the byte at this address is not a documented opcode",
"BRK":"the next instruction is BRK",
"DECIMAL":"ADC and SBC do not support decimal mode; clear D with CLD",
"LIMIT":"the limit of steps was reached; raise it with --limit"};
const lineOf=k=>{while(k>=0&&!(PC[k]in LINE))k--;return k<0?0:LINE[PC[k]]};
const place=p=>svc[p]?svc[p]:p in LINE?"line "+LINE[p]:p==0xff69?"the end of the run":hx(p,4);
// an address with its name; one up to 9 only by a name that line l has, since it may be a number
const named=(t,n)=>t.split(/[^\w]+/).includes(n),nm=(a,l)=>{const n=l&&F.names.find(n=>n[1]==a&&named(code[l-1],n[0]));return hx(a,4)+(n?" ("+n[0]+")":NAME[a]&&a>9?" ("+NAME[a]+")":"")};
const step=k=>svc[PC[k-1]]?svc[PC[k-1]]+", called from line "+lineOf(k-1):place(PC[k-1]);
function area(a,o,y,x,was){const l=o&31,w=a=>was(a)|was(a+1&65535)<<8,z=a=>was(a)|was(a+1&255)<<8,b=was(a+1);
if(o==0x4c||o==0x6c)return-1;
return l>3&&l<7?b:l>19&&l<23?b+(o==0x96||o==0xb6?y:x)&255:l>11&&l<15?w(a+1):l>27&&l<31?w(a+1)+(o==0xbe?y:x)&65535:l==25?w(a+1)+y&65535:l==1?z(b+x&255):l==17?z(b)+y&65535:-1}
// the register that an instruction sets, and the one that it compares
const sets=op=>(op&3)==1?(op>>5==4||op>>5==6?"":"a"):(op&0x9f)==10||op==0x8a||op==0x98||op==0x68?"a":(op&3)==2&&op>>5==5||op==0xe8||op==0xca?"x":(op&3)==0&&op>>5==5&&(op&31)!=16&&(op&31)!=24||op==0xc8||op==0x88?"y":"";
const compared=op=>op>>5==6&&(op&3)==1?"a":[0xe0,0xe4,0xec].includes(op)?"x":[0xc0,0xc4,0xcc].includes(op)?"y":"";
function words(k){const p=PC[k-1],o=[],ln=lineOf(k-1),v=r=>REG[r][k],u=r=>REG[r][k-1],was=a=>{for(let c=FIRST[k];c<FIRST[k+1];c++)if(ADR[c]==a)return OLD[c];return a<RAM?ram[a]:0};
let ea=-1,op=-1,stk=0,sum="";
if(svc[p])o.push(SAY[svc[p]]||"");else{op=was(p);ea=area(p,op,u("y"),u("x"),was);
const given=was((op&31)==9||(op&31)==0?p+1:ea),carry=u("p")&1;
if((op&3)==1&&op>>5==3)sum=" = "+hx(u("a"))+" + "+hx(given)+" + carry "+carry;
if((op&3)==1&&op>>5==7)sum=" = "+hx(u("a"))+" - "+hx(given)+" - borrow "+(1-carry);
const to=esc(place(PC[k]))+(NAME[PC[k]]&&!svc[PC[k]]?" ("+esc(NAME[PC[k]])+")":"");
if((op&31)==16){const n=op>>6;o.push("NVCZ"[n]+" is "+(u("p")>>[7,6,0,1][n]&1)+", so the branch is "+(PC[k]==p+2?"not taken":"taken, to "+to))}
else if(op==0x4c||op==0x6c)o.push("jumps to "+to);
else if(op==0x20){o.push("calls "+to+"; pushes "+hx(p+2,4)+", the address for the return");stk=1}
else if(op==0x60||op==0x40){o.push(PC[k]==0xff69?"returns; this ends the run":"returns to "+to);stk=1}
else if(op==0x48||op==8){o.push("pushes "+(op==8?"the flags":"A ("+hx(u("a"))+")")+" onto the stack");stk=1}
else if(op==0x68||op==0x28){o.push("pulls "+hx(was(256+v("s")))+" from the stack");stk=1}
if(ea>=0&&op>>5!=4)o.push("reads "+esc(nm(ea,ln))+(ea<RAM?", which holds "+hx(was(ea)):""));
const c=compared(op);if(c){const r=u(c);o.push(c.toUpperCase()+" is compared: "+hx(r)+" "+esc(r<given?"<":r>given?">":"=")+" "+hx(given))}}
for(const r of"axys"){const t=hx(v(r))+(r=="a"?sum:"");if(u(r)!=v(r)){if(r!="s"||!stk)o.push(r.toUpperCase()+" becomes "+t)}else if(op>=0&&r==sets(op))o.push(r.toUpperCase()+" stays "+t)}
const c=FIRST[k],e=FIRST[k+1];
if(!stk){for(let i=c;i<min(e,c+3);i++)o.push(esc(nm(ADR[i],ln))+" becomes "+hx(NEW[i])+" (was "+hx(OLD[i])+")");
if(e>c+3)o.push("and "+(e-c-3)+" more bytes change");
if(ea>=0&&op>>5==4&&c==e)o.push("stores to "+esc(nm(ea,ln))+(ea<RAM?", which already held that byte":""))}
const d=u("p")^v("p"),f=[..."NV..DIZC"].map((n,i)=>d>>7-i&1?n+(v("p")>>7-i&1?" set":" cleared"):"").filter(x=>x);
if(f.length)o.push(f.join(", "));
if(KEY[k]>KEY[k-1])o.push("takes "+esc(keyname(KEY[k-1],KEY[k])));
const n=COME[k]-COME[k-1];if(n)o.push(esc(keyname(COME[k-1],COME[k]))+(n>1?" are":" is")+" typed");
if(SW[k]!=SW[k-1])o.push("the screen now shows "+scrname(SW[k]));
return o.filter(x=>x).join("; ")||({24:"C stays 0",56:"C stays 1",88:"I stays 0",120:"I stays 1",184:"V stays 0",216:"D stays 0",248:"D stays 1"})[op]||"only PC changes"}
function keyname(i,j){let o=[];for(;i<j;i++){const v=X(F.keys.substr(2*i,2));o.push(v==13?"RETURN":v==32?"blank":v<32?"Ctrl-"+chr(v+64):chr(v))}return(o.length>1?"keys ":"key ")+o.join(" ")}
const scrname=s=>(s&1?"text":(s&8?"hi-res":"lo-res")+(s&2?" with four rows of text":""))+", page "+(s&4?2:1);
// ---- the screen
const FONT="3E415D594E7C1211127C7F494949363E414141227F4141413E7F494949417F090909013E4149497A7F0808087F00417F41002040413F017F081422417F404040407F020C027F7F0408107F3E4141413E7F090909063E4151215E7F09192946464949493101017F01013F4040403F1F2040201F3F4038403F631408146307087008076151494543007F41410002040810200041417F0004020102044040404040000000000000005F00000007000700147F147F14242A7F2A12231308646236495620500000070000001C2241000041221C002A1C7F1C2A08083E080800503000000808080808006060000020100804023E5149453E00427F400042615149462141454B311814127F1027454545393C4A49493001710905033649494936064949291E003636000000563600000814224100141414141400412214080201510906";
const COL="000 d03 009 d2d 072 555 22f 6af 850 f60 aaa f98 1d0 ff0 4f9 fff".split(" ").map(c=>"#"+c);
const cell=(r,c)=>1024+128*(r%8)+40*(r>>3)+c,gl=b=>(b&=63)<32?b+64:b;
const cv=$("scr"),g=cv.getContext("2d"),ov=$("ov").getContext("2d"),still=matchMedia("(prefers-reduced-motion:reduce)"),seen=new Int32Array(960).fill(-1);
let flash=0;
const box=(c,x,y)=>{ov.strokeStyle=c;const a=max(2,x-2),b=max(2,y-2);ov.strokeRect(a,b,min(1118,x+30)-a,min(766,y+34)-b)};
function draw(){
const s=SW[at],off=s&4?1024:0,text=s&1,mixed=s&2,hires=s&8,o=[];let fl=0;
const ch=new Set;for(let i=FIRST[at],e=at?FIRST[at+1]:i;i<e;i++)ch.add(ADR[i]);
ov.clearRect(0,0,1120,768);ov.lineWidth=3;
for(let r=0;r<24;r++){let t="";const tx=text||mixed&&r>19;
for(let c=0;c<40;c++){const a=cell(r,c)+off,b=ram[a],x=14*c,y=16*r,f=tx&&b>63&&b<128,inv=b<64||f&&(flash||still.matches);if(f)fl=1;
t+=tx?chr(gl(b)):hires?"":h(b,2)[1]+h(b,2)[0];
const q=b|(tx?256|(inv?512:0):hires?1024:2048);
if(seen[40*r+c]!=q){seen[40*r+c]=q;
if(tx){g.fillStyle=inv?"#e8f2e8":"#000";g.fillRect(x,y,14,16);g.fillStyle=inv?"#000":"#e8f2e8";
for(let i=0;i<5;i++){const w=X(FONT.substr(10*(b&63)+2*i,2));for(let j=0;j<7;j++)if(w>>j&1)g.fillRect(x+2+2*i,y+2+2*j,2,2)}
}else if(hires){g.fillStyle="#000";g.fillRect(x,y,14,16)}
else{g.fillStyle=COL[b&15];g.fillRect(x,y,14,8);g.fillStyle=COL[b>>4];g.fillRect(x,y+8,14,8)}}
if(ch.has(a)&&ch.size<400&&(tx||!hires))box("#ffcf33",2*x,2*y);
if(a==sel&&!selr)box("#4fc3ff",2*x,2*y)}
o.push(t)}
if(hires&&!text){ov.fillStyle="#e8f2e8";ov.font="40px monospace";ov.fillText("HI-RES IS NOT SHOWN",330,340)}
txt("scrh","Screen: "+scrname(s));$("tv").classList.toggle("text",!!text);
txt("scrt",o.join("\n"));
clearTimeout(draw.t);if(fl&&!still.matches)draw.t=setTimeout(()=>{flash=1-flash;draw()},270)}
cv.onclick=e=>{const b=cv.getBoundingClientRect(),q=(v,n)=>max(0,min(n-1,floor(v*n)));
pick(cell(q((e.clientY-b.top)/b.height,24),q((e.clientX-b.left)/b.width,40))+(SW[at]&4?1024:0))};
// ---- memory
const mt=$("mem"),tds=[],put=(e,t)=>{if(e.v!==t)e.v=e.textContent=t};
{let s="<tr><td>";for(let i=0;i<16;i++)s+="<th scope=col>"+h(i,1);s+="<th>";s=s.replace("<td>","<th>");
for(let r=0;r<16;r++)s+="<tr><th scope=row>"+"<td role=gridcell tabindex=-1>".repeat(16)+"<th>";
mt.innerHTML=s;mt.querySelectorAll("td").forEach((t,i)=>{tds.push(t);t.onclick=()=>{const a=page*256+i;a==sel&&!selr?who():pick(a)}});
const c={0:"zero page",1:"stack",2:"input line"};for(let i=4;i<12;i++)c[i]="screen, page "+(i<8?1:2);for(const q of F.list)if(q[2])c[q[1]>>8]="program";
s="";for(let i=0;i<192;i++)s+="<option value="+i+">"+hx(i)+(c[i]?" "+c[i]:"");$("pg").innerHTML=s}
mt.onkeydown=e=>{const d={ArrowRight:1,ArrowLeft:-1,ArrowDown:16,ArrowUp:-16}[e.key],i=tds.indexOf(T_.activeElement);if(i<0)return;
if(d){const a=page*256+i+d;if(a>=0&&a<RAM){pick(a);tds[a&255].focus()}}else if(e.key=="Enter")who();else return;e.preventDefault();e.stopPropagation()};
function mem(){
const ch=new Set;if(at)for(let i=FIRST[at];i<FIRST[at+1];i++)ch.add(ADR[i]);
if($("fol").checked&&ch.size)page=([...ch].find(a=>a>>8!=1)??[...ch][0])>>8;
$("pg").value=page;
for(let r=0;r<16;r++){const t=mt.rows[r+1].cells;put(t[0],h(page*256+r*16,4));let s="";
for(let i=0;i<16;i++){const a=page*256+r*16+i,v=ram[a],d=t[i+1],n=(ch.has(a)?"ch ":"")+(a==sel&&!selr?"sel ":"")+(v!=start[a]?"ever":v?"":"zero");put(d,h(v,2));
if(d.n!==n)d.className=d.n=n;if(d.a!==a)d.title=nm(d.a=a);const f=a==sel||!i&&!r&&sel>>8!=page?0:-1;if(d.f!==f)d.tabIndex=d.f=f;s+=v>159||v<32?chr(gl(v)):v<127?chr(v):"\u00B7"}
put(t[17],s)}}
// ---- who wrote this, next change
let ret=-1;
const what=()=>selr||nm(sel),colr=()=>selr=="PC"?PC:REG[selr.toLowerCase()];
function pick(a,r=""){sel=a;selr=r;if(!r&&a<RAM){page=a>>8;$("fol").checked=false}$("adr").value=r||hx(a,4);show()}
function find(d,from=at){if(selr){const c=colr();for(let k=from;k>0&&k<=N;k+=d)if(c[k]!=c[k-1])return k;return 0}
if(d<0){for(let c=FIRST[from+1]-1;c>=0;c--)if(ADR[c]==sel)return stepOf(c)}else for(let c=FIRST[min(N+1,from)];c<total;c++)if(ADR[c]==sel)return stepOf(c);
return 0}
function stepOf(c){let a=0,b=N+1;while(b-a>1){const m=a+b>>1;FIRST[m]<=c?a=m:b=m}return a}
const inform=t=>{txt("whot","");$("say").innerHTML="<p>"+t+"</p>"},jump=k=>{ret=at;go(k)};
const look=(k,t)=>sel<0&&!selr?inform("Nothing is chosen; click a byte or a register."):k?jump(k):inform(esc(what())+" does not change "+t+" this step."),who=()=>look(find(-1,find(-1)==at?at-1:at),"before"),next=()=>look(find(1,at+1),"after");
const goBack=()=>ret<0?inform("There is no step to return to; the keys w and n go to another step."):jump(ret);
function whot(){const k=find(-1),b=k==at&&k?find(-1,at-1):0,n=find(1,at+1),l=(k,t)=>'<button data-go="'+k+'">'+t+" "+(B+k)+"</button>";
$("whot").innerHTML=sel<0&&!selr?"":"<b>"+esc(what())+"</b> "+(selr?"":"holds "+hx(ram[sel]||0)+"; ")+(k?k==at?"this step changed it ("+esc(step(k))+"). ":"last changed by "+esc(step(k))+". ":"unchanged since the start. ")+(k&&k!=at?l(k,"Go to step"):"")+(b?l(b,"Previous change: step"):"")+(n?l(n,"Next change: step"):"")+(ret>=0&&ret!=at?l(ret,"Return to step"):"")}
$("whot").onclick=$("regs").onclick=e=>{const b=e.target.closest("button");if(!b)return;if(b.dataset.go)jump(+b.dataset.go);else{pick(0,b.dataset.r);T_.querySelector('[data-r="'+b.dataset.r+'"]').focus()}};
// ---- the whole page
let nowr,wasr,hot=[];
for(const l of xs)hot.push([byline[l][1],rows[l-1].firstChild,-1]);
function show(){
txt("no",B+at);txt("cy",CY[at]);const sl=$("at");sl.value=at;
sl.setAttribute("aria-valuetext","step "+(B+at)+" of "+(B+N));$("link").href=lnk();
nowr?.classList.remove("now");nowr?.removeAttribute("aria-current");wasr?.classList.remove("was");
const ln=LINE[PC[at]]||0,wl=at?lineOf(at-1):0;
wasr=rows[wl-1];wasr?.classList.add("was");nowr=rows[ln-1];
if(nowr){nowr.classList.add("now");nowr.setAttribute("aria-current","step")}
const t=nowr||wasr,s=$("src");
if(t){const y=t.offsetTop;if(y<s.scrollTop+60||y>s.scrollTop+s.clientHeight-60)s.scrollTop=y-s.clientHeight/2}
for(const q of hot){const v=hits[q[0]];if(v!=q[2]){q[2]=v;q[1].textContent=v||"";q[1].style.setProperty("--w",v?.06+.5*log(1+v)/MOST:0)}}
const st=at?PC[at-1]:0,ci=chap(),c=CH[ci];$("chs").selectedIndex=ci;
$("say").innerHTML=(c?'<p class="chap"><b>'+(ci+1)+" of "+CH.length+"</b> "+CH.filter(d=>d.k==c.k).map(d=>esc(d.t)).join("<br>")+"</p>":"")+"<p>"+(at?(svc[st]?"<code>"+svc[st]+"</code>, a service called from line "+wl:st in LINE?"Line "+wl+" <code>"+esc(code[wl-1])+"</code>":"Instruction at <code>"+hx(st,4)+"</code>")+": "+words(at)+".":B?"<b>The film begins here,</b> "+B+" steps into the run.":"<b>The start.</b> No step has been executed yet.")+"</p>"+
(at==N?'<p class="stop'+(F.stop=="RETURNED"?" ok":"")+'">The run stops at '+(ln?"line "+ln+" <code>"+esc(code[ln-1])+"</code>":hx(PC[at],4)+(svc[PC[at]]?", the service <code>"+svc[PC[at]]+"</code>":""))+", "+F.stop+": "+esc(STOP[F.stop]||"")+".</p>":"<p>Next: "+(svc[PC[at]]?"the service <code>"+svc[PC[at]]+"</code>":ln?"line "+ln+" <code>"+esc(code[ln-1])+"</code>":hx(PC[at],4))+".</p>");
let r="",strip="";
for(const n of["A","X","Y","S","P","PC"]){const c=n=="PC"?PC:REG[n.toLowerCase()],v=c[at];if("AXY".includes(n))strip+=n+" "+h(v,2)+" ";
r+='<button data-r="'+n+'"'+("AXY".includes(n)?' title="%'+v.toString(2).padStart(8,0)+(v>127?"; as a signed number "+(v-256):"")+(v>159?"; the character "+esc(chr(gl(v))):"")+'"':"")+(at&&v!=c[at-1]&&n!="PC"?' class="ch"':"")+' aria-label="'+n+" "+h(v,2)+'"><small>'+n+("AXY".includes(n)?" = "+v:"")+"</small><b>"+h(v,n=="PC"?4:2)+"</b></button>"}
$("regs").innerHTML=r;
txt("strip",strip+[..."NV..DIZC"].filter((n,i)=>n!="."&&REG.p[at]>>7-i&1).join(" "));
$("flags").innerHTML=[..."NVDIZC"].map((n,i)=>{const b=7-"NV..DIZC".indexOf(n),p=REG.p[at],c=at&&(p^REG.p[at-1])>>b&1;return"<span"+(c?' class="ch"':"")+' title="'+["negative","overflow","decimal","interrupts disabled","zero","carry"][i]+'"><small>'+n+"</small><b>"+(p>>b&1)+"</b></span>"}).join("");
let k="",p=REG.s[at]+1;for(let i=p;i<256&&i<p+16;i++)k+=" "+h(ram[256+i],2);
txt("stk","Stack"+(p<256?" from "+hx(256+p,4)+":"+k+(p<240?" \u2026":""):": empty")+(F.keys?" \u00B7 keys taken: "+KEY[at]+" of "+COME[at]:""));
mem();whot();draw();hash()}
function go(k){seek(k);show()}
const lnk=()=>"#step="+(B+at)+(bps.size?"&bp="+[...bps].map(a=>LINE[a]):"");
function hash(){clearTimeout(hash.t);hash.t=setTimeout(()=>{if(!timer)try{history.replaceState(null,"",lnk())}catch{}},400)}
function unhash(){const m=location.hash.match(/step=(\d+)/),b=location.hash.match(/bp=([\d,]+)/);if(b)for(const l of b[1].split(","))if(byline[l]&&!bps.has(byline[l][1]))mark(+l);if(m)go(m[1]-B);return m}
// ---- controls
let timer=0;
function play(on){if(on&&at==N)seek(0);$("play").setAttribute("aria-pressed",!!on);txt("play",on?"\u275A\u275A Pause":"\u25B6 Play");$("say").setAttribute("aria-live",on?"off":"polite");cancelAnimationFrame(timer);timer=0;
if(on){let prev=performance.now(),acc=0;const f=t=>{acc+=(t-prev)/1000*$("speed").value;prev=t;const n=floor(acc);if(n>0){acc-=n;
let k=min(N,at+n);for(let i=at+1;i<k;i++)if(bps.has(PC[i])){k=i;break}
go(k);if(at==N||bps.has(PC[at]))return play(0)}timer=requestAnimationFrame(f)};timer=requestAnimationFrame(f)}else hash()}
function brk(d){if(!bps.size){inform("No breakpoint is set; click a line of the program, or press x.");return}
let k=at+d;while(k>0&&k<N&&!bps.has(PC[k]))k+=d;go(k)}
function over(d){const s=REG.s[at];let k=at+d;if(k>=0&&k<=N&&(d>0?ram[PC[at]]==0x20&&!svc[PC[at]]:REG.s[k]==(s-2&255)))while(k>0&&k<N&&(d>0?REG.s[k]!=s:REG.s[k]<s))k+=d;go(k)}
$("at").max=N;$("at").oninput=e=>go(+e.target.value);
const goto=()=>{const t=$("goto").value.trim();$("goto").blur();if(/^\d+$/.test(t))go(t-B);else inform("Write the number of a step, from "+B+" to "+(B+N)+".")};
$("goto").onkeydown=e=>{if(e.key=="Enter")goto()};
const num=t=>{t=t.trim();const n=F.names.find(n=>n[0]==t);return n?n[1]:X(t.replace("$",""))};
$("adr").onchange=e=>{const a=num(e.target.value);if(a>=0&&a<RAM)pick(a)};
const turn=p=>{page=(p+192)%192;$("fol").checked=false;mem()};
$("pg").onchange=e=>turn(+e.target.value);
const theme=d=>{T_.documentElement.classList.toggle("dark",d);$("dark").setAttribute("aria-pressed",d)},mq=matchMedia("(prefers-color-scheme:dark)");
theme(mq.matches);mq.onchange=()=>theme(mq.matches);
const on={home:()=>go(0),end:()=>go(N),b1:()=>go(at-1),f1:()=>go(at+1),play:()=>play(!timer),run:()=>brk(1),back:()=>brk(-1),over:()=>over(1),c0:()=>walk(-1),c1:()=>walk(1),gob:goto,pgm:()=>turn(page-1),pgp:()=>turn(page+1),dark:()=>theme(!T_.documentElement.classList.contains("dark"))};
for(const i in on)$(i).onclick=on[i];
document.onkeydown=e=>{const t=e.target;if(e.ctrlKey||e.altKey||e.metaKey||t.tagName=="SELECT"||t.type=="text"){if(e.key=="Escape")t.blur();return}
const d=e.shiftKey?10:1,K={ArrowRight:()=>go(at+d),ArrowLeft:()=>go(at-d),Home:()=>go(0),End:()=>go(N),b:()=>brk(1),B:()=>brk(-1),o:()=>over(1),O:()=>over(-1),x:()=>mark(LINE[PC[at]]),c:()=>walk(1),C:()=>walk(-1),w:who,n:next,r:goBack,"/":()=>{$("goto").focus();$("goto").select()}};
if(e.key==" "&&t.tagName!="BUTTON"&&t.type!="checkbox")K[" "]=()=>play(!timer);
if(K[e.key]){if(timer&&e.key!=" ")play(0);K[e.key]();e.preventDefault()}};
const fit=()=>T_.documentElement.style.setProperty("--hh",(innerWidth>640?$("hd").offsetHeight+12:0)+"px");onresize=fit;
document.title=F.title+": a run";txt("title",F.title);txt("of",B+N);fit();
onhashchange=unhash;if(!unhash())go(0);
</script>
</body>
</html>
"##;
